//! The subjects, from sets and texts up to whole runs; the tables (`rows`); and what tests of both games share (`worked`).

mod boards;
mod candidates;
mod devices;
mod faults;
mod games;
mod puzzles;
mod rows;
mod runs;
mod saving;
mod sets_of_numbers;
mod texts;
mod third_game;
mod towers_lines;
mod words;
mod worked;
