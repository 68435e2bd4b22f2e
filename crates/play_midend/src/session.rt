//! A session: a puzzle, its history and the board that is shown.

ghost use Rattle.std.specs.Prelude.{◌≡◌, ◌+◌, ◌-◌, ◌≤◌, ◌<◌, ◌++◌, ◌∷◌, [], length, take, slice_get, false, Some, None};
ghost use Rattle.std.specs.Prelude.{Ok, Err, IsOk, IfOk, IfErr, OnOk, OnErr};
ghost use Rattle.latin_board.specs.Changes.{FitsBoard, board_after};
ghost use Rattle.play_midend.specs.declared.session.TheConstants.{MOST_STATES};
ghost use Rattle.play_midend.specs.Steps.{takes_memory};
ghost use Rattle.play_midend.specs.Histories.{first_state_refusal, full_refusal};

use crate::extras::Extras;
use crate::fault::PlayFault;
use crate::moves::Move;
use crate::step::{Effect, change_for, effect_of, start};
use game_texts::{Game, Params};
use latin_board::{Board, Change};
use std::alloc::{AllocError, Global};
use std::marker::Model;
use trail_solver::{Answer, solve};

/// How many states a history may have, the first included.
pub const MOST_STATES: usize = 100_000;

// A move, and the change that takes it back while it is past, or makes it again while it is later.
#[derive(Drop, Debug)]
struct Link {
    made: Move,
    change: Change,
}

/// A puzzle that is played: its history, which is a list of moves and the position of the state that is shown, and its board.
/// It does what the mid-end of the collection does (its developer guide): a move drops the states after the position, undo
/// and redo go along them, and a restart is a move of its own.
///
/// Contracts see a session as a `History`: puzzle, parameters, kept bytes, moves and position. It has one board and beside
/// each move one change, so that `undo` and `redo` are one exchange each and take no memory.
#[derive(Drop)]
pub struct Session<P: Game> {
    puzzle: P,
    params: Params,
    next_params: Params,
    extras: Extras,
    board: Board,
    links: Vec<Link>,
    // How many of the links are past. Those after them are later.
    past: usize,
}

impl<P: Game> Model for Session<P> {
    ghost use Rattle.std.specs.Prelude.{◌≡◌};
    ghost use Rattle.play_midend.specs.Histories.{History};

    ghost Value = { History P };

    ghost use Rattle.play_midend.specs.Inner.Links.{viewed, AreLinked};

    ghost view = { viewed };

    ghost invariant = { λ s. (s.params.size ≡ (P.puzzle s.puzzle).size)
        × AreLinked (P.puzzle s.puzzle) s.links.items s.past s.board };
}

// A restart is refused at the first state, where there is no move to take back.
fn check_restart(position: usize, m: &Move) -> Result<(), PlayFault>
    ensures ok { OnOk result (first_state_refusal position m.now ≡ None) }
    ensures err { IfErr result (λ fault. first_state_refusal position m.now ≡ Some fault) }
{
    match m {
        Move::Restart if position == 1 => Err(PlayFault::NothingToRestart),
        _ => Ok(()),
    }
}

// A further state needs room in the history.
fn check_room(position: usize) -> Result<(), PlayFault>
    ensures ok { OnOk result (full_refusal position ≡ None) }
    ensures err { IfErr result (λ fault. full_refusal position ≡ Some fault) }
{
    if position == MOST_STATES {
        return Err(PlayFault::HistoryFull);
    }
    Ok(())
}

// Puts a link after the past ones, in place of all that stand there. If one does, that takes no memory.
fn put(links: &mut Vec<Link>, past: usize, last: Link) -> Result<(), AllocError>
    requires { past ≤ length links.old.items }
    ensures ok { OnOk result (links.new.items ≡ take past links.old.items ++ last ∷ []) }
    ensures err { OnErr result (links.new.items ≡ links.old.items) }
    ensures in_place { past < length links.old.items → IsOk result }
{
    if past == links.len() {
        links.push(last)?;
    } else {
        links[past] = last;
        links.truncate(past + 1);
    }
    Ok(())
}

// Exchanges what a link's change holds with what the board holds there: so a past move is taken back, and a later one made
// again. A second exchange restores both.
fn exchange(board: &mut Board, link: &mut Link)
    requires { FitsBoard board.old link.old.change }
    ensures board { board.new ≡ board_after board.old link.old.change }
    ensures made { link.new.made ≡ link.old.made }
    ensures fits { FitsBoard board.new link.new.change }
    ensures restores { board_after board.new link.new.change ≡ board.old }
{
    board.swap(&mut link.change);
}

impl<P: Game> Session<P> {
    ghost use Rattle.play_midend.specs.Histories.{History, IsSessionBoard, IsValid, shown, started, at_position, refusal_in, played};
    ghost use Rattle.play_midend.specs.Histories.{restarted, SolveGives, undone, redone, IsRefusal, IsSolveRefusal};
    ghost use Rattle.play_midend.specs.declared.moves.Move.{Move};
    ghost use Rattle.play_midend.specs.Inner.Effects.{IsEffect};

    /// A session of the puzzle at its start. The size of `params` is the puzzle's.
    ///
    /// It makes room for one move: `OutOfMemory` alone.
    pub fn new(
        alloc: Global,
        params: Params,
        next_params: Params,
        puzzle: P,
        extras: Extras,
    ) -> Result<Session<P>, PlayFault>
        requires { params.size ≡ (P.puzzle puzzle).size }
        ensures ok { IfOk result (λ s. s ≡ started puzzle params next_params extras) }
        ensures only_out_of_memory { IfErr result (λ fault. fault ≡ PlayFault.OutOfMemory) }
    {
        let links = Vec::with_capacity(alloc, 1)?;
        let board = start(&puzzle);
        Ok(Session {
            puzzle,
            params,
            next_params,
            extras,
            board,
            links,
            past: 0,
        })
    }

    /// Makes a move: the states after the one that is shown go, and the new one is shown.
    ///
    /// Refused, the first that applies, with nothing changed: `NothingToRestart` for a restart at position 1; `OffGrid`,
    /// `OffRange`, `GivenSquare`, `FilledSquare` and `BadSolution` as the board has it; `HistoryFull` at position `MOST_STATES`;
    /// `OutOfMemory`, which a number or a pencil mark in place of a later move never meets.
    pub fn play(&mut self, m: Move) -> Result<(), PlayFault>
        ensures ok { OnOk result (played (P.puzzle self.old.puzzle) self.old m ≡ Ok self.new) }
        ensures err { OnErr result (self.new ≡ self.old) }
        ensures why { IfErr result (IsRefusal (played (P.puzzle self.old.puzzle) self.old m)) }

        // A number or a pencil mark in place of a later move takes no memory.
        ensures in_place { takes_memory m ≡ false → self.old.position ≤ length self.old.moves
            → IfErr result (λ fault. played (P.puzzle self.old.puzzle) self.old m ≡ Err fault) }
    {
        let effect = self.allow(&m)?;
        let alloc = *self.links.allocator();
        let change = change_for(alloc, &self.puzzle, &self.board, effect)?;
        put(&mut self.links, self.past, Link { made: m, change })?;
        self.forward();
        Ok(())
    }

    /// Makes a move that sets the board back to the start.
    ///
    /// Refused, the first that applies, with nothing changed: `NothingToRestart` at position 1, `HistoryFull` at position
    /// `MOST_STATES`, `OutOfMemory`.
    pub fn restart(&mut self) -> Result<(), PlayFault>
        ensures ok { OnOk result (restarted self.old ≡ Ok self.new) }
        ensures err { OnErr result (self.new ≡ self.old) }
        ensures why { IfErr result (IsRefusal (restarted self.old)) }
    {
        self.play(Move::Restart)
    }

    /// Fills in the only solution of the starting puzzle, whatever the board shows: a move as by `play`.
    ///
    /// Refused, the first that applies, with nothing changed: `NoSolution`, `SeveralSolutions`, `HistoryFull` at position
    /// `MOST_STATES`, `OutOfMemory`.
    #[tactic(auto, using(crate::proofs::Playing::solve_refused))]
    pub fn solve(&mut self) -> Result<(), PlayFault>
        ensures ok { OnOk result (SolveGives (P.puzzle self.old.puzzle) self.old (Ok self.new)) }
        ensures err { OnErr result (self.new ≡ self.old) }
        ensures why { IfErr result (IsSolveRefusal (P.puzzle self.old.puzzle) self.old) }
    {
        match solve(&self.puzzle) {
            Answer::None => Err(PlayFault::NoSolution),
            Answer::One(grid) => self.play(Move::Solve(grid)),
            Answer::Several(_, _) => Err(PlayFault::SeveralSolutions),
        }
    }

    /// Shows the state before; `NothingToUndo` at position 1 alone. It takes no memory.
    pub fn undo(&mut self) -> Result<(), PlayFault>
        ensures ok { OnOk result (undone self.old ≡ Ok self.new) }
        ensures err { OnErr result (self.new ≡ self.old) }
        ensures why { IfErr result (λ fault. undone self.old ≡ Err fault) }
    {
        if self.past == 0 {
            return Err(PlayFault::NothingToUndo);
        }
        self.past -= 1;
        exchange(&mut self.board, &mut self.links[self.past]);
        Ok(())
    }

    /// Shows the next state; `NothingToRedo` at the last alone. It takes no memory.
    pub fn redo(&mut self) -> Result<(), PlayFault>
        ensures ok { OnOk result (redone self.old ≡ Ok self.new) }
        ensures err { OnErr result (self.new ≡ self.old) }
        ensures why { IfErr result (λ fault. redone self.old ≡ Err fault) }
    {
        if self.past == self.links.len() {
            return Err(PlayFault::NothingToRedo);
        }
        self.forward();
        Ok(())
    }

    // The effect of a move, or its first refusal, `OutOfMemory` left aside.
    fn allow(&self, m: &Move) -> Result<Effect, PlayFault>
        ensures ok { OnOk result (refusal_in (P.puzzle self.now.puzzle) self.now m.now ≡ None) }
        ensures effect { IfOk result (IsEffect (P.puzzle self.now.puzzle)
            (shown (P.puzzle self.now.puzzle) self.now) m.now) }
        ensures err { IfErr result (λ fault.
            refusal_in (P.puzzle self.now.puzzle) self.now m.now ≡ Some fault) }
    {
        check_restart(self.position(), m)?;
        let effect = effect_of(self.puzzle(), self.board(), m)?;
        check_room(self.position())?;
        Ok(effect)
    }

    // Makes the next of the later moves again.
    fn forward(&mut self)
        requires { self.old.position ≤ length self.old.moves }
        ensures { self.new ≡ at_position self.old (self.old.position + 1) }
    {
        exchange(&mut self.board, &mut self.links[self.past]);
        self.past += 1;
    }

    /// The puzzle as it was at the start.
    pub fn puzzle(&self) -> &P
        ensures { result.now ≡ self.now.puzzle }
    {
        &self.puzzle
    }

    /// The parameters of the current game.
    pub fn params(&self) -> &Params
        ensures { result.now ≡ self.now.params }
    {
        &self.params
    }

    /// The parameters of the next game.
    pub fn next_params(&self) -> &Params
        ensures { result.now ≡ self.now.next_params }
    {
        &self.next_params
    }

    /// The bytes that are kept for a save file.
    pub fn extras(&self) -> &Extras
        ensures { result.now ≡ self.now.extras }
    {
        &self.extras
    }

    /// The board that is shown: the past moves, replayed from the start.
    #[tactic(auto, using(crate::proofs::Viewing::shown_viewed))]
    pub fn board(&self) -> &Board
        ensures shown { result.now ≡ shown (P.puzzle self.now.puzzle) self.now }
        ensures size { result.now.size ≡ (P.puzzle self.now.puzzle).size }
        ensures kept { IsSessionBoard (P.puzzle self.now.puzzle).size result.now }
        ensures valid { IsValid (P.puzzle self.now.puzzle) self.now }
    {
        let _size = self.board.size();
        &self.board
    }

    /// The move that leads to state `i + 1`, for `i` from 1 to `states() - 1`.
    pub fn move_at(&self, i: usize) -> &Move
        requires first { 1 ≤ i }
        requires last { i ≤ length self.now.moves }
        ensures { slice_get self.now.moves (i - 1) ≡ Some result.now }
    {
        &self.links[i - 1].made
    }

    /// How many states there are, the first included.
    pub fn states(&self) -> usize
        ensures { result ≡ length self.now.moves + 1 }
    {
        self.links.len() + 1
    }

    /// The number of the state that is shown, from 1 to `states()`.
    pub fn position(&self) -> usize
        ensures { result ≡ self.now.position }
    {
        self.past + 1
    }
}
