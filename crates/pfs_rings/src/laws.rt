//! Laws of the places.

ghost use Rattle.pfs_rings.specs.RingPlaces.{WithinLaw, ApartLaw};
ghost use Rattle.pfs_rings.specs.RingExamples.{WorkedPlaces};

/// The places of a thread lie among 56 rows of its own.
pub fn rows_of_a_thread()
    ensures { WithinLaw }
{}

/// No row is two places of threads.
pub fn one_place()
    ensures { ApartLaw }
{}

/// Places of two threads and of the long history, number by number.
pub fn places_worked()
    ensures { WorkedPlaces }
{}
