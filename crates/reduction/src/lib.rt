// Remainders by a generator, with a table of its multiples.
// Numbers that come back: a remainder has 12 words, for no generator has a degree above 768 = 12 * 64 (D in the laws); a table has
// 3072 words, 16 blocks, one for each hex digit of a word, of 16 rows of 12 words.
#![tactic(auto)]

pub mod table; // the table of a generator
pub mod remainder; // remainders by a table
