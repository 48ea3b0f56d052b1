//! What the words of a command ask for.

use crate::columns::Times;
use crate::phases::Choice;
use pfs_text::read_u64;

/// What is asked for.
#[derive(Clone, Copy)]
pub struct Asked<'a> {
    /// What of the report is shown.
    pub choice: Choice<'a>,
    /// How many bytes of the report's script come before it.
    pub script_bytes: usize,
}

impl<'a> Asked<'a> {
    /// The same with another choice.
    fn choosing(self, choice: Choice<'a>) -> Asked<'a> {
        Asked {
            choice,
            script_bytes: self.script_bytes,
        }
    }

    /// The same with what one option and its value ask for.
    fn with_value(self, option: &str, value: &'a str) -> Option<Asked<'a>> {
        let Choice {
            phase,
            table,
            times,
        } = self.choice;
        if option == "--phase" {
            let phase = Some(read_u64(value.as_bytes())?);
            Some(self.choosing(Choice {
                phase,
                table,
                times,
            }))
        } else if option == "--table" {
            let table = Some(value.as_bytes());
            Some(self.choosing(Choice {
                phase,
                table,
                times,
            }))
        } else if option == "--script" {
            Some(Asked {
                choice: self.choice,
                script_bytes: read_u64(value.as_bytes())? as usize,
            })
        } else {
            None
        }
    }

    /// The same with times in picoseconds.
    fn raw(self) -> Asked<'a> {
        self.choosing(Choice {
            phase: self.choice.phase,
            table: self.choice.table,
            times: Times::Picoseconds,
        })
    }
}

/// What the words ask for besides this: `--raw` times in picoseconds, `--phase N` that phase alone, `--table NAME` those
/// tables alone, `--script N` that so many bytes of the script come first; a later one in place of an earlier one of its
/// kind. None where a word is no such option, lacks its value, or its number is none below 2^64.
pub fn choose<'a>(words: &'a [String], asked: Asked<'a>) -> Option<Asked<'a>> {
    match words {
        [] => Some(asked),
        [option, rest @ ..] => {
            if option.as_str() == "--raw" {
                return choose(rest, asked.raw());
            }
            let [value, rest @ ..] = rest else {
                return None;
            };
            choose(rest, asked.with_value(option.as_str(), value.as_str())?)
        }
    }
}
