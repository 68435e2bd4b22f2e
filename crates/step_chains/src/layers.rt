//! A first chain: rounds of steps, in which the dearer kinds wait for the cheaper ones.
//! Nothing here ensures anything: `short_chain` follows what comes of it step by step, and tells it only where it is a chain.
ghost use Rattle.std.specs.Prelude.{◌≡◌};

use crate::aims::first_empty;
use crate::chain::Step;
use crate::goals::shown_goal;
use crate::kinds::{KINDS, Kind, Sought, is_dear, is_done, is_of_use};
use crate::needs::{Values, left, single, squares_from, squares_of};
use crate::reasons::{Part, group};
use crate::replays::{struck, take};
use crate::seen::{Looks, PLACES, last_place, row_of, shared_numbers, sharing, struck_along};
use arrayvec::ArrayVec;
use latin_board::{CELLS, Grid, OutOfMemory};
use named_steps::{Grade, Reason, Steps};
use number_sets::NumberSet;
use std::alloc::Global;
use trail_solver::{Candidates, Mark, Rules};

// No more rounds than pairs that can be struck.
const ROUNDS: usize = 729;

// How many sets of squares a row or column has.
const GROUPS: usize = 512;

// A contradiction that isn't found after so many steps is a long one. From then on clues and groups are looked at only where nothing
// cheaper strikes: it is found sooner, and has somewhat more steps.
const MANY: usize = 60;

/// Rounds of steps: the candidates at the beginning of a round, what its steps have struck by now, and all steps so far.
#[derive(Drop)]
pub(crate) struct Rounds<'a, P: Steps> {
    pub(crate) now: Candidates,
    start: Mark,
    gone: Values,
    pub(crate) steps: Vec<Step>,
    sought: Sought,
    // Whether the first round has all kinds, and not the cheapest alone.
    is_at_once: bool,
    // How many steps there were when what is sought was last looked for and not found.
    unfound_at: Option<usize>,
    // The squares of which one value is left and that were looked at: what they strike is listed.
    peers: Values,
    // Whether there are signs, which strike something whatever is left.
    has_signs: bool,
    // The numbers that were left of each square at the last look at the signs: those strikes are listed.
    signs: Values,
    // From which places a clue strikes something by itself: from the others there is none.
    has_clue: [bool; PLACES],
    places: Looks,
    stands: Looks,
    clues: Looks,
    groups: Looks,
    pub(crate) cache: &'a mut P::Cache,
}

impl<'a, P: Steps> Rounds<'a, P> {
    /// No round yet, from what is in view. The first one has all kinds at once, or the cheapest alone.
    pub(crate) fn of(
        alloc: Global,
        view: Candidates,
        sought: Sought,
        is_at_once: bool,
        cache: &'a mut P::Cache,
    ) -> Rounds<'a, P> {
        Rounds {
            start: view.mark(),
            now: view,
            gone: Values::none(),
            steps: Vec::new(alloc),
            sought,
            is_at_once,
            unfound_at: None,
            peers: Values::none(),
            has_signs: true,
            signs: Values::none(),
            has_clue: [false; PLACES],
            places: Looks::none(),
            stands: Looks::none(),
            clues: Looks::none(),
            groups: Looks::none(),
            cache,
        }
    }

    /// Gives back what the steps struck, so that all in view is left again. The steps stay listed.
    pub(crate) fn give_back(&mut self) {
        if self.start.len() <= self.now.trail_len() {
            self.now.give_back(self.start);
        }
    }

    /// Steps of the grade's from what is in view of the grid, round after round, until they lead to what is sought or strike nothing
    /// more.
    #[inline(never)]
    pub(crate) fn go_through(
        &mut self,
        p: &P,
        grid: &Grid,
        grade: Grade,
    ) -> Result<(), OutOfMemory> {
        if self.is_at_once {
            return self.go_on(p, grid, grade, KINDS.len() - 1);
        }
        for last in 0..KINDS.len() {
            if is_of_use(KINDS[last], self.sought, grade) {
                self.go_on(p, grid, grade, last)?;
            }
        }
        Ok(())
    }

    // Rounds with the kinds up to `last`, while they strike anything and what is sought isn't found.
    fn go_on(&mut self, p: &P, grid: &Grid, grade: Grade, last: usize) -> Result<(), OutOfMemory> {
        for round in 0..ROUNDS {
            if self.now.size() != grid.size() || self.has_found(grid) {
                return Ok(());
            }
            let before = self.steps.len();
            self.round(p, grade, last, round == 0)?;
            if self.steps.len() == before {
                return Ok(());
            }
        }
        Ok(())
    }

    // Whether what is sought is found. Where it isn't, it is looked for again only after more steps.
    fn has_found(&mut self, grid: &Grid) -> bool
        requires { self.old.now.size ≡ grid.now.size }
    {
        let steps = Some(self.steps.len());
        if self.unfound_at == steps {
            return false;
        }
        let found = match self.sought {
            Sought::NumberShown => shown_goal(&self.now, grid).is_some(),
            Sought::SquareEmptied => first_empty(&self.now).is_some(),
        };
        if !found {
            self.unfound_at = steps;
        }
        found
    }

    // One round with the kinds up to `last`, new in the first round. All steps look at the same candidates.
    fn round(
        &mut self,
        p: &P,
        grade: Grade,
        last: usize,
        is_first: bool,
    ) -> Result<(), OutOfMemory> {
        let before = self.steps.len();
        for kind in 0..KINDS.len() {
            let is_new = is_first && (kind == last || self.is_at_once);
            if kind <= last && self.is_due(KINDS[kind], grade, is_new, before) {
                self.look(p, grade, KINDS[kind])?;
            }
        }
        self.catch_up(before);
        self.gone = Values::none();
        Ok(())
    }

    // Whether a kind is looked at in a round that began with so many steps.
    fn is_due(&self, kind: Kind, grade: Grade, is_new: bool, before: usize) -> bool {
        if !is_of_use(kind, self.sought, grade) || (is_done(kind) && !is_new) {
            return false;
        }
        match self.sought {
            Sought::NumberShown => true,
            Sought::SquareEmptied => !self.has_to_wait(kind, before),
        }
    }

    // Whether a dear kind waits, as a cheaper one has struck something in the round, and there are many steps.
    fn has_to_wait(&self, kind: Kind, before: usize) -> bool {
        before >= MANY && before < self.steps.len() && is_dear(kind)
    }

    // Takes away what the steps from a place on list.
    fn catch_up(&mut self, from: usize) {
        for place in from..self.steps.len() {
            let step = self.steps[place];
            take(&mut self.now, &step);
        }
    }

    // The steps of one kind.
    fn look(&mut self, p: &P, grade: Grade, kind: Kind) -> Result<(), OutOfMemory> {
        match kind {
            Kind::Peer | Kind::Given => self.look_at_squares(p, grade, kind),
            Kind::Bound | Kind::Stand | Kind::Clue => self.look_at_clues(p, grade, kind),
            Kind::Place => self.look_at_places(p, grade),
            Kind::Set => self.look_at_groups(p, grade),
            Kind::Sign => self.look_at_all_signs(p, grade),
        }
    }

    // The steps of the givens, or of the squares of which one value is left.
    fn look_at_squares(&mut self, p: &P, grade: Grade, kind: Kind) -> Result<(), OutOfMemory> {
        let size = self.now.size();
        let width = size.get() as usize;
        for cell in 0..width * width {
            if let Kind::Given = kind {
                self.look_in(p, grade, &Reason::Given { cell }, cell)?;
            } else if left(&self.now, cell).is_single() && self.peers.of(cell).is_empty() {
                self.peers.add(cell, left(&self.now, cell));
                let reason = Reason::Peer { cell };
                self.look_among(p, grade, &reason, &squares_of(size, cell / width))?;
                self.look_among(p, grade, &reason, &squares_of(size, width + cell % width))?;
            }
        }
        Ok(())
    }

    // The steps of the clues at the edge by a kind of look, where this sees what it didn't see before.
    fn look_at_clues(&mut self, p: &P, grade: Grade, kind: Kind) -> Result<(), OutOfMemory> {
        for place in 0..4 * self.now.size().get() as usize {
            match kind {
                Kind::Stand => self.look_at_line(p, grade, &Reason::Stand { place }, place)?,
                Kind::Clue => self.look_at_line(p, grade, &Reason::Clue { place }, place)?,
                _ => self.look_at_bound(p, grade, place)?,
            }
        }
        Ok(())
    }

    // The steps of one clue by itself.
    fn look_at_bound(&mut self, p: &P, grade: Grade, place: usize) -> Result<(), OutOfMemory> {
        let strikes = self.look_from(p, grade, &Reason::Bound { place }, place)?;
        if place < PLACES {
            self.has_clue[place] = strikes;
        }
        Ok(())
    }

    // Whether there is a clue at a place of the edge. It is known once the clues have been looked at by themselves, which comes first.
    fn is_clued(&self, place: usize) -> bool {
        place < PLACES && self.has_clue[place]
    }

    // The steps of one clue by what stands or is left in its line, if fewer numbers are left there than at the last look.
    fn look_at_line(
        &mut self,
        p: &P,
        grade: Grade,
        reason: &Reason,
        place: usize,
    ) -> Result<(), OutOfMemory> {
        if self.is_clued(place) {
            let row = row_of(&self.now, &squares_from(self.now.size(), place));
            let is_new = match reason {
                Reason::Stand { .. } => self.stands.note_new(place, &row),
                _ => self.clues.note_new(place, &row),
            };
            if is_new {
                let _strikes = self.look_from(p, grade, reason, place)?;
            }
        }
        Ok(())
    }

    // The steps of the values that have one place left in a row or column where fewer numbers are left than
    // at the last look; a value that has none left is looked at in the line's first square.
    fn look_at_places(&mut self, p: &P, grade: Grade) -> Result<(), OutOfMemory> {
        let size = self.now.size();
        for line in 0..2 * size.get() as usize {
            let cells = squares_of(size, line);
            let row = row_of(&self.now, &cells);
            if self.places.note_new(line, &row) {
                self.look_along(p, grade, line, &cells, &row)?;
            }
        }
        Ok(())
    }

    // The steps of the values that have one place left, or none, in this row or column.
    fn look_along(
        &mut self,
        p: &P,
        grade: Grade,
        line: usize,
        cells: &ArrayVec<u8, 9>,
        row: &[NumberSet; 9],
    ) -> Result<(), OutOfMemory> {
        let few = NumberSet::up_to(self.now.size().get()).difference(shared_numbers(row));
        for value in 1..10 {
            if few.has(value) {
                let index = last_place(row, value);
                if index < cells.len() {
                    let reason = Reason::Place { line, index, value };
                    self.look_in(p, grade, &reason, cells[index] as usize)?;
                }
            }
        }
        Ok(())
    }

    // The steps of the signs, unless none was found when they were looked at first.
    fn look_at_all_signs(&mut self, p: &P, grade: Grade) -> Result<(), OutOfMemory> {
        if !self.has_signs {
            return Ok(());
        }
        self.has_signs = false;
        self.look_at_signs(p, grade, true)?;
        self.look_at_signs(p, grade, false)?;
        self.signs = Values::left(&self.now);
        Ok(())
    }

    // The steps of the signs at the lesser ends, which strike the greatest number there, or at the
    // greater ones.
    fn look_at_signs(&mut self, p: &P, grade: Grade, at_lesser: bool) -> Result<(), OutOfMemory> {
        let greatest = single(self.now.size().get());
        for place in 0..Part::Signs.count(self.now.size()) {
            if let Some(Reason::Sign { from, to }) = Part::Signs.nth(&self.now, place) {
                let (from, to) = if at_lesser { (to, from) } else { (from, to) };
                let seen = self.signs.of(from);
                if !seen.is_empty() && seen == left(&self.now, from) {
                    self.has_signs = true;
                    continue;
                }
                let reason = Reason::Sign { from, to };
                let values = struck(p, &self.now, &reason, to, self.cache);
                self.has_signs |= !values.is_empty();
                if greatest.is_subset(values) == at_lesser {
                    self.list(grade, &reason, to, values)?;
                }
            }
        }
        Ok(())
    }

    // The steps of groups of squares, in rows and columns where fewer numbers are left than at the
    // last look. A square that shares no value with another is in no group that strikes anything.
    #[inline(never)]
    fn look_at_groups(&mut self, p: &P, grade: Grade) -> Result<(), OutOfMemory> {
        let size = self.now.size();
        for line in 0..2 * size.get() as usize {
            let cells = squares_of(size, line);
            let row = row_of(&self.now, &cells);
            if self.groups.note_new(line, &row) {
                self.look_at_groups_on(p, grade, line, &cells, &row)?;
            }
        }
        Ok(())
    }

    // The steps of groups of squares of this row or column; `row` is what is left of its squares.
    fn look_at_groups_on(
        &mut self,
        p: &P,
        grade: Grade,
        line: usize,
        cells: &ArrayVec<u8, 9>,
        row: &[NumberSet; 9],
    ) -> Result<(), OutOfMemory> {
        let among = sharing(row);
        let mut unions = [NumberSet::empty(); GROUPS];
        let mut squares = 0u16;
        for _ in 1..GROUPS {
            // The next greater number that stands for some of the squares, or 0 after the last.
            squares = squares.wrapping_sub(among.bits()) & among.bits();
            let rest = (squares & squares.wrapping_sub(1)) as usize;
            let (at, place) = (squares as usize, squares.trailing_zeros() as usize);
            if at >= GROUPS || rest >= GROUPS || place >= 9 {
                return Ok(());
            }
            unions[at] = unions[rest].union(row[place]);
            if let Some(reason) = group(line, NumberSet::from_bits(squares), unions[at]) {
                self.look_among(p, grade, &reason, cells)?;
            }
        }
        Ok(())
    }

    // The strikes of a clue in the squares from its place, all found at once; and whether there are any.
    fn look_from(
        &mut self,
        p: &P,
        grade: Grade,
        reason: &Reason,
        place: usize,
    ) -> Result<bool, OutOfMemory> {
        let cells = squares_from(self.now.size(), place);
        let row = struck_along(p, &self.now, reason, place, &cells, self.cache);
        let mut strikes = false;
        for k in 0..cells.len() {
            if k < 9 {
                strikes |= !row[k].is_empty();
                self.list(grade, reason, cells[k] as usize, row[k])?;
            }
        }
        Ok(strikes)
    }

    // The strikes of a reason in some squares.
    fn look_among(
        &mut self,
        p: &P,
        grade: Grade,
        reason: &Reason,
        cells: &ArrayVec<u8, 9>,
    ) -> Result<(), OutOfMemory> {
        for cell in cells.as_slice() {
            self.look_in(p, grade, reason, *cell as usize)?;
        }
        Ok(())
    }

    // The strikes of a reason in one square.
    fn look_in(
        &mut self,
        p: &P,
        grade: Grade,
        reason: &Reason,
        cell: usize,
    ) -> Result<(), OutOfMemory> {
        let values = struck(p, &self.now, reason, cell, self.cache);
        self.list(grade, reason, cell, values)
    }

    // Lists as a step what is left by now of the values that a reason strikes in a square.
    fn list(
        &mut self,
        grade: Grade,
        reason: &Reason,
        cell: usize,
        struck: NumberSet,
    ) -> Result<(), OutOfMemory> {
        let values = struck
            .intersection(left(&self.now, cell))
            .difference(self.gone.of(cell));
        if values.is_empty() || cell >= CELLS || !grade.has(*reason) {
            return Ok(());
        }
        let step = Step {
            reason: *reason,
            cell: cell as u8,
            values,
        };
        self.gone.add(cell, values);
        self.steps.push(step)?;
        Ok(())
    }
}
