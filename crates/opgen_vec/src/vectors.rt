//! Rows of words as one list of numbers, row after row.
ghost use Rattle.std.specs.Prelude.{◌≡◌, ◌*◌, ◌/◌, length};

/// Rows of words, row after row. Each cell is the number of a word.
///
/// The number of cells is a multiple of `columns`, and 0 where `columns` is 0.
#[derive(Drop)]
pub struct Vectors {
    pub columns: u32,
    pub cells: Vec<u128>,
    pub ghost whole: { columns * (length cells.items / columns) ≡ length cells.items },
}

impl Vectors {
    ghost use Rattle.opgen_vec.specs.Writing.{row_count};

    /// The number of rows, 0 where a row has no cell.
    pub fn row_count(&self) -> usize
        ensures { result ≡ row_count self.now.columns self.now.cells.items }
    {
        if self.columns == 0 {
            0
        } else {
            self.cells.len() / self.columns as usize
        }
    }
}
