//! The listing: the first solutions of a puzzle, in order.
ghost use Rattle.std.specs.Prelude.{◌≡◌, ◌<◌, ◌≤◌, length, IfOk, OnOk};
ghost use Rattle.std.specs.Bool.{OnTrue, OnFalse};
ghost use Rattle.trail_solver.specs.Pairs.{IsPair};
ghost use Rattle.trail_solver.specs.Inner.Squares.{AreSettled, IsFirstOpen, IsOpenSquare};
ghost use Rattle.trail_solver.specs.Inner.Among.{IsAmong, IsAmongAt};
ghost use Rattle.trail_solver.specs.Puzzles.{Solves};
ghost use Rattle.trail_solver.specs.Inner.Searches.{IsFurther};
ghost use Rattle.trail_solver.specs.Listings.{AreFirst};
ghost use Rattle.trail_solver.specs.Inner.Listed.{Lists};
ghost use Rattle.trail_solver.specs.declared.listing.TheConstants.{MOST_LISTED};

use crate::answer::Answer;
use crate::candidates::Candidates;
use crate::choice::first_open;
use crate::rules::{Rules, solves};
use crate::search::Search;
use crate::squares::filled;
use latin_board::{Grid, OutOfMemory};
use std::alloc::Global;

/// The most solutions that a listing can be asked for.
pub const MOST_LISTED: u8 = 100;

/// The first solutions of the puzzle as lists of numbers in reading order, rising, each once; all of them where there
/// are no more than the limit, which is from 1 to `MOST_LISTED`. `OutOfMemory` where a growth was refused.
///
/// It goes through the squares in reading order and their values from 1 up, and asks the search before it goes on with a
/// value: it never goes on where there is no solution.
pub fn solutions<P: Rules>(alloc: Global, p: &P, limit: u8) -> Result<Vec<Grid>, OutOfMemory>
    requires least { 1 ≤ limit }
    requires most { limit ≤ MOST_LISTED }
    ensures { IfOk result (λ listed. AreFirst (Solves (P.puzzle p.now)) limit listed.items) }
{
    let mut listing = Listing {
        search: Search::among(p, Candidates::all(p.size())),
        limit,
        listed: Vec::new(alloc),
    };
    if listing.search.settle() {
        listing.list()?;
    }
    Ok(listing.listed)
}

/// A listing under way: the search that it asks, and the solutions that it has listed, of which the limit is the most.
#[derive(Drop)]
struct Listing<P: Rules> {
    search: Search<P>,
    limit: u8,
    listed: Vec<Grid>,
}

impl<P: Rules> Listing<P> {
    // Lists the solutions among the candidates, while there is room.
    #[cycle(listing)]
    fn list(&mut self) -> Result<(), OutOfMemory>
        requires { length self.old.listed.items < self.old.limit }
        ensures further { IsFurther self.old.search self.new.search }
        ensures limit { self.new.limit ≡ self.old.limit }
        ensures lists { OnOk result (Lists
            (IsAmong (P.puzzle self.old.search.rules) self.old.search.candidates)
            self.old.limit self.old.listed.items self.new.listed.items) }
    {
        let Some(cell) = first_open(&self.search.candidates) else {
            return self.list_leaf();
        };
        if self.list_only()? {
            self.list_values(cell)
        } else {
            Ok(())
        }
    }

    // Lists the only solution among the candidates, if there is one and no other, and tells whether there are several. It isn't
    // inlined, so that grids take no room in the frames of the calls within calls.
    #[inline(never)]
    #[tactic(auto, using(crate::proofs::ListingSteps::none_lists, crate::proofs::ListingSteps::only_lists))]
    fn list_only(&mut self) -> Result<bool, OutOfMemory>
        requires { length self.old.listed.items < self.old.limit }
        ensures same { self.new.search ≡ self.old.search }
        ensures limit { self.new.limit ≡ self.old.limit }
        ensures several { IfOk result (λ several. OnTrue several (self.new ≡ self.old)) }
        ensures lists { IfOk result (λ several. OnFalse several (Lists
            (IsAmong (P.puzzle self.old.search.rules) self.old.search.candidates)
            self.old.limit self.old.listed.items self.new.listed.items)) }
    {
        match self.search.answer() {
            Answer::None => Ok(false),
            Answer::One(grid) => {
                self.listed.push(grid)?;
                Ok(false)
            }
            Answer::Several(_, _) => Ok(true),
        }
    }

    // Lists the solutions among the candidates by the values of the first open square.
    #[cycle(listing)]
    fn list_values(&mut self, cell: usize) -> Result<(), OutOfMemory>
        requires first { IsFirstOpen self.old.search.candidates cell }
        requires room { length self.old.listed.items < self.old.limit }
        ensures further { IsFurther self.old.search self.new.search }
        ensures limit { self.new.limit ≡ self.old.limit }
        ensures lists { OnOk result (Lists
            (IsAmong (P.puzzle self.old.search.rules) self.old.search.candidates)
            self.old.limit self.old.listed.items self.new.listed.items) }
    {
        let width = self.search.candidates.size().get();
        for value in 1..width + 1 {
            self.list_guess(cell, value)?;
        }
        Ok(())
    }

    // Lists the solutions that have the value in the cell, and leaves the candidates as they were.
    #[cycle(listing)]
    #[tactic(auto, using(crate::proofs::ListingSteps::full_lists, crate::proofs::ListingSteps::guess_lists_none))]
    fn list_guess(&mut self, cell: usize, value: u8) -> Result<(), OutOfMemory>
        requires open_cell { IsOpenSquare self.old.search.candidates cell }
        requires pair { IsPair self.old.search.candidates.size cell value }
        requires few { length self.old.listed.items ≤ self.old.limit }
        ensures same { self.new.search ≡ self.old.search }
        ensures limit { self.new.limit ≡ self.old.limit }
        ensures lists { OnOk result (Lists
            (IsAmongAt (P.puzzle self.old.search.rules) self.old.search.candidates cell value)
            self.old.limit self.old.listed.items self.new.listed.items) }
    {
        if self.listed.len() == self.limit as usize {
            return Ok(());
        }
        if !self.search.candidates.may(cell, value) {
            return Ok(());
        }
        let checkpoint = self.search.checkpoint();
        let done = if self.search.assume(cell, value) {
            self.list()
        } else {
            Ok(())
        };
        self.search.go_back(checkpoint);
        done
    }

    // Lists the only grid of the candidates, where it is a solution.
    #[tactic(auto, using(crate::proofs::ListingSteps::leaf_lists, crate::proofs::ListingSteps::leaf_lists_none))]
    fn list_leaf(&mut self) -> Result<(), OutOfMemory>
        requires settled { AreSettled self.old.search.candidates }
        requires room { length self.old.listed.items < self.old.limit }
        ensures same { self.new.search ≡ self.old.search }
        ensures limit { self.new.limit ≡ self.old.limit }
        ensures lists { OnOk result (Lists
            (IsAmong (P.puzzle self.old.search.rules) self.old.search.candidates)
            self.old.limit self.old.listed.items self.new.listed.items) }
    {
        let grid = filled(&self.search.candidates);
        if solves(&self.search.rules, &grid) {
            self.listed.push(grid)?;
        }
        Ok(())
    }
}
