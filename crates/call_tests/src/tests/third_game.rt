//! The calls of the library at a third game, that of `client`: each call once, and some that are refused.

mod calls;
mod runs;

use crate::tests::third_game::calls::{
    Said, begun, begun_by_words, changed, described, facts, first_record, generated, id_read,
    is_solved_by, kept, listed, moved, params_written, reloaded,
};
use crate::tests::third_game::runs::{ran, ran_in_memory, ran_over_std};
use client::Latin;
use clue_rules::Game;
use play_midend::{Move, laws, move_list_laws};
use play_save::{save, saved_and_loaded};
use puzzle_cli::{done_text, marks_text, picture, status_text};

// Whether a call says this, or is refused by this name.
fn says(said: Said<Vec<u8>>, wanted: Said<&str>) -> bool {
    match (said, wanted) {
        (Ok(said), Ok(wanted)) => said.as_slice() == wanted.as_bytes(),
        (Err(name), Err(wanted)) => name == wanted,
        _ => false,
    }
}

const ID: &str = "3:123200000";

// No adjacent mode, letters of its own, and descriptions.
#[test]
fn ids_are_read(rt: HostRuntime) {
    assert!(rt; says(id_read(rt.alloc(), ID), Ok("123200000")));
    assert!(rt; says(id_read(rt.alloc(), "3dn!5"), Ok("seeded")));
    assert!(rt; says(id_read(rt.alloc(), "3a:123200000"), Err("BadParams")));
    assert!(rt; says(id_read(rt.alloc(), "3dx:123200000"), Err("BadLetter")));
    assert!(rt; says(id_read(rt.alloc(), "3:12320000"), Err("TooFew")));
    assert!(rt; says(id_read(rt.alloc(), "3:123200004"), Err("BadSquares")));
    assert!(rt; says(params_written(rt.alloc(), "4dn"), Ok("4dn")));
}

#[test]
fn a_command_line_begins_a_session(rt: HostRuntime) {
    const WORDS: &[&str] = &["puzzles", "towers", "--id", ID, "--save", "f"];
    assert!(rt; says(begun_by_words(rt.alloc(), WORDS), Ok("123200000")));
    assert!(rt;
        says(
            begun_by_words(rt.alloc(), &["puzzles", "chess"]),
            Err("BadWords")
        )
    );
    assert!(rt;
        says(
            begun_by_words(rt.alloc(), &["puzzles", "--help"]),
            Err("HelpAsked")
        )
    );
}

#[test]
fn moves_are_made_and_shown(rt: HostRuntime) {
    let mut session = begun(rt.alloc(), ID).expect(&rt, "a session");
    assert!(rt;
        says(
            moved(rt.alloc(), &mut session, "R0,0,2"),
            Err("GivenSquare")
        )
    );
    assert!(rt; says(moved(rt.alloc(), &mut session, "R01,0,2"), Err("BadMove")));
    assert!(rt; says(moved(rt.alloc(), &mut session, "D0,-1"), Err("OffGrid")));
    assert!(rt; says(changed(rt.alloc(), &session, "R1,1,3"), Ok("123230000\n")));
    assert!(rt;
        says(
            changed(rt.alloc(), &session, "S123231312"),
            Ok("123231312\n")
        )
    );
    assert!(rt; says(moved(rt.alloc(), &mut session, "R1,1,3"), Ok("R1,1,3")));
    assert!(rt; says(moved(rt.alloc(), &mut session, "P0,2,3"), Ok("P0,2,3")));
    let shown = picture(rt.alloc(), &session).map_err(|fault| fault.name());
    let marks = marks_text(rt.alloc(), &session).map_err(|fault| fault.name());
    assert!(rt; says(shown, Ok("123230000\n")) && says(marks, Ok("0,2:3\n")));
    assert!(rt; status_text(&session).as_str() == "playing 3/3");
    assert!(rt; done_text(&session).as_slice() == b"no done clues\n".as_slice());
}

#[test]
fn a_history_goes_back_and_forth(rt: HostRuntime) {
    laws::<Latin>();
    move_list_laws::<Latin>();
    let mut session = begun(rt.alloc(), ID).expect(&rt, "a session");
    assert!(rt; session.undo().is_err() && session.restart().is_err());
    assert!(rt; session.play(Move::MarkAll).is_ok() && session.undo().is_ok());
    assert!(rt; session.redo().is_ok() && session.redo().is_err());
    assert!(rt; session.solve().is_ok() && session.restart().is_ok());
    assert!(rt; session.states() == 4 && session.position() == 4);
    assert!(rt; *session.move_at(1) == Move::MarkAll && *session.move_at(3) == Move::Restart);
}

const SAVED: &str = "SAVEFILE:41:Simon Tatham's Portable Puzzle Collection
VERSION :1:1
GAME    :5:Latin
PARAMS  :3:3dn
CPARAMS :3:3dn
SEED    :2:12
DESC    :9:123200000
NSTATES :1:2
STATEPOS:1:2
MOVE    :6:R1,1,3
";

#[test]
fn a_session_is_saved_and_loaded(rt: HostRuntime) {
    let begun = begun(rt.alloc(), ID).expect(&rt, "a session");
    let mut session = kept(rt.alloc(), *begun.puzzle(), b"12").expect(&rt, "a session");
    assert!(rt; says(moved(rt.alloc(), &mut session, "R1,1,3"), Ok("R1,1,3")));
    let loaded = reloaded(rt.alloc(), &session).expect(&rt, "a session");
    assert!(rt; says(facts(rt.alloc(), &loaded), Ok("Latin|en|3dn|3dn|12|")));
    let again = saved_and_loaded(rt.alloc(), &loaded).map_err(|fault| fault.name());
    let again = again.expect(&rt, "a session");
    let saved = save(rt.alloc(), &again).map_err(|fault| fault.name());
    assert!(rt; says(saved, Ok(SAVED)));
}

#[test]
fn records_are_read(rt: HostRuntime) {
    const TEXT: &[u8] = b"\r\nSEED    :2:12\nrest";
    assert!(rt; says(first_record(rt.alloc(), TEXT), Ok("SEED|12|\nrest|")));
    assert!(rt; says(first_record(rt.alloc(), b"\n"), Ok("none")));
    assert!(rt; says(first_record(rt.alloc(), b"SEED    :9:12"), Err("Malformed")));
}

#[test]
fn puzzles_are_solved_and_made(rt: HostRuntime) {
    let session = begun(rt.alloc(), "3:123000000").expect(&rt, "a session");
    let puzzle = session.puzzle();
    assert!(rt; says(described(rt.alloc(), puzzle), Ok("123000000")));
    assert!(rt; !puzzle.clue_at(0, -1) && puzzle.same(puzzle));
    assert!(rt; says(listed(rt.alloc(), puzzle), Ok("123231312;123312231;")));
    assert!(rt; is_solved_by(puzzle, "123231312") && !is_solved_by(puzzle, "132213321"));
    assert!(rt; says(generated(rt.alloc(), 4, 7), Ok("one")));
}

#[test]
fn runs_over_each_device(rt: HostRuntime) {
    const INPUT: &str = "show\nnew 3:123200000\nmove R1,1,3\nshow";
    const RUN: &str = "refused: NoGame\nok\nok\n123230000\n";
    assert!(rt; says(ran(rt.alloc(), INPUT), Ok(RUN)));
    assert!(rt; says(ran_in_memory(rt.alloc(), INPUT, 0), Ok(RUN)));
    assert!(rt; says(ran_in_memory(rt.alloc(), INPUT, 4), Err("WriteFault")));
    assert!(rt; says(ran_over_std(rt.alloc(), INPUT), Ok(RUN)));
}
