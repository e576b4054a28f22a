// The line set for controllers written in C or another language: `rt lib` here gives the archive, and
// include/imjauska.h says what a caller owes and gets.
#![tactic(auto)]

mod exports;
