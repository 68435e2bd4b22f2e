//! How tall a tower can be near a clue, by its place alone: no set and no filling is looked at, as in `row_fillings`.
//!
//! Of the first squares from a place each can show a tower, and after one of them only greater values do: so from its k-th square, counted
//! from 1, no more towers are seen than k and one for each value that is greater than the square's.

ghost use Rattle.std.specs.Prelude.{◌≡◌, ◌+◌, ◌*◌, ◌<◌, ◌≤◌};
ghost use Rattle.line_steps.specs.Chains.{LeadsTo};
ghost use Rattle.towers_game.specs.TowersReasons.{IsTowersStruckBy};
ghost use Rattle.line_steps.specs.declared.grade.Grade.TheVariants.{Easy};

use crate::towers::Towers;
use latin_board::Size;
use line_steps::{View, strike};
use number_sets::NumberSet;
use trail_solver::Candidates;

impl Towers {
    /// Takes from the squares near each clue the values that are too great for it. A look at each line of
    /// candidates as a whole would take them too, but that is far dearer, and is then done less often.
    pub(crate) fn keep_low_towers(&self, candidates: &mut Candidates)
        requires { candidates.old.size ≡ self.now.size }
        ensures { LeadsTo (IsTowersStruckBy self.now) Easy candidates.old candidates.new }
    {
        let width = candidates.size().get();
        for place in 0..4 * width {
            self.keep_low_from(candidates, place);
        }
    }

    // Takes from the squares near a place the values that are too great for its clue, if there is one.
    fn keep_low_from(&self, candidates: &mut Candidates, place: u8)
        requires size { candidates.old.size ≡ self.now.size }
        requires place { place < 4 * candidates.old.size }
        ensures { LeadsTo (IsTowersStruckBy self.now) Easy candidates.old candidates.new }
    {
        let size = candidates.size();
        let view = View::from(size, place);
        let clue = self.clue(place);
        let all = NumberSet::up_to(size.get());
        for k in 1..clue {
            let low = NumberSet::up_to(greatest_at(size, clue, k));
            strike(
                candidates,
                view.cell(usize::from(k - 1)),
                all.difference(low),
            );
        }
    }
}

// The greatest value that the k-th square from a clue, counted from 1, can have.
fn greatest_at(size: Size, clue: u8, k: u8) -> u8
    requires near { k < clue }
    requires clue { clue ≤ size }
    ensures { result + clue ≡ size + k }
{
    size.get() - (clue - k)
}
