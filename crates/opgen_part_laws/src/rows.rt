//! Laws of files of vectors: a file has one reading, and the definitions give what was worked out by hand.
ghost use Rattle.opgen_vec.specs.Reading.{HasOneReading};
ghost use Rattle.opgen_vec.specs.Worked.{TextsCompute, DrawsCompute, StreamsCompute};

/// A file of vectors has one reading: its cells, or one fault.
pub fn one_reading_of_rows()
    ensures { HasOneReading }
{}

/// The definitions, computed on worked rows.
pub fn definitions_compute()
    ensures texts { TextsCompute }
    ensures draws { DrawsCompute }
    ensures streams { StreamsCompute }
{}
