//! The numbers of a summary's rows, as values.

ghost use Rattle.std.specs.Prelude.{◌≡◌, ◌++◌, map, OnOk};
ghost use Rattle.pfs_text.specs.declared.values.RowValue.TheVariants as value;
ghost use Rattle.pfs_stat.specs.Stat.{merge_of};
ghost use Rattle.pfs_summaries.specs.RowValues.{timed_number, times_of, sums_of, values_of, count_of};

use crate::NoMemory;
use pfs_stat::Stat;
use pfs_text::RowValue;

/// The numbers of a summary row, as its kind of events has them.
#[derive(Clone, Copy, Debug, PartialEq, Eq)]
pub enum Numbers {
    /// The count and the times of waits or stages.
    Times(Stat),
    /// The count, the times and the six sums of statements.
    Statements(Stat),
    /// The count and the times of the READ WRITE transactions, and those of the READ ONLY ones. A
    /// row shows those of all transactions before them.
    Transactions { read_write: Stat, read_only: Stat },
}

impl Numbers {
    /// How many events the row counts, MySQL's COUNT_STAR.
    pub fn count(&self) -> u64
        ensures { result ≡ count_of self.now }
    {
        match self {
            Numbers::Times(stat) | Numbers::Statements(stat) => stat.count,
            Numbers::Transactions {
                read_write,
                read_only,
            } => read_write.merge(*read_only).count,
        }
    }

    /// Appends the numbers to a row: the count and times, then a statement's six sums, or a
    /// transaction's counts and times by access mode.
    #[tactic(auto, unfolding(crate::specs::RowValues::values_of))]
    pub fn put(&self, values: &mut Vec<RowValue>) -> Result<(), NoMemory>
        ensures { OnOk result (values.new.items ≡ values.old.items ++ values_of self.now) }
    {
        match self {
            Numbers::Times(stat) => put_times(values, stat),
            Numbers::Statements(stat) => put_statements(values, stat),
            Numbers::Transactions {
                read_write,
                read_only,
            } => put_transactions(values, read_write, read_only),
        }
    }
}

// A least or greatest as it is shown: 0 where nothing was timed.
fn timed_number(stat: &Stat, number: u64) -> u64
    ensures { result ≡ timed_number stat.now number }
{
    if stat.is_timed() { number } else { 0 }
}

fn put_numbers(values: &mut Vec<RowValue>, numbers: &[u64]) -> Result<(), NoMemory>
    ensures { OnOk result (values.new.items ≡ values.old.items ++ map (λ number. value.Number number) numbers.now) }
{
    for number in numbers {
        values.push(RowValue::Number(*number))?;
    }
    Ok(())
}

// Count, sum, least, average, greatest.
#[tactic(auto, unfolding(crate::specs::RowValues::times_of))]
fn put_times(values: &mut Vec<RowValue>, stat: &Stat) -> Result<(), NoMemory>
    ensures { OnOk result (values.new.items ≡ values.old.items ++ times_of stat.now) }
{
    let least = timed_number(stat, stat.min);
    let greatest = timed_number(stat, stat.max);
    put_numbers(values, &[stat.count, stat.sum, least, stat.avg(), greatest])
}

#[tactic(auto, unfolding(crate::specs::RowValues::sums_of))]
fn put_sums(values: &mut Vec<RowValue>, stat: &Stat) -> Result<(), NoMemory>
    ensures { OnOk result (values.new.items ≡ values.old.items ++ sums_of stat.now) }
{
    put_numbers(
        values,
        &[
            stat.lock,
            stat.errors,
            stat.warnings,
            stat.affected,
            stat.sent,
            stat.examined,
        ],
    )
}

fn put_statements(values: &mut Vec<RowValue>, stat: &Stat) -> Result<(), NoMemory>
    ensures { OnOk result (values.new.items ≡ values.old.items ++ (times_of stat.now ++ sums_of stat.now)) }
{
    put_times(values, stat)?;
    put_sums(values, stat)
}

fn put_transactions(
    values: &mut Vec<RowValue>,
    read_write: &Stat,
    read_only: &Stat,
) -> Result<(), NoMemory>
    ensures { OnOk result (values.new.items ≡ values.old.items
        ++ (times_of (merge_of read_write.now read_only.now) ++ times_of read_write.now ++ times_of read_only.now)) }
{
    put_times(values, &read_write.merge(*read_only))?;
    put_times(values, read_write)?;
    put_times(values, read_only)
}
