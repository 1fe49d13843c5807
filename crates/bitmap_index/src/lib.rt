// The bitmap index: for each level a row of bits, one bit for each address.
#![tactic(auto)]

mod row;
mod words;

use index::rows::Rows;
use row::BitmapRow;

pub type BitmapIndex = Rows<BitmapRow>;
