// Recorded words by five letters in a cell: above the last generator of a word, in its cell, stand the four letters
// before it and the element at which the word ends without these five.
#![tactic(auto)]

pub mod inner;
