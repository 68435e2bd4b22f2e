//! The numbers, names, statuses and lines of faults: one of each kind, since docs/FORMATS.md has them all.

use clue_rules::IdFault;
use latin_board::OutOfMemory;
use play_midend::PlayFault;
use play_save::LoadFault;
use puzzle_cli::{CommandFault, End, LineFault, StartFault};
use puzzle_gen::GenFault;

#[test]
fn faults_have_numbers_and_names(rt: HostRuntime) {
    let id = IdFault::Contradiction;
    assert!(rt; id.number() == 13 && id.name() == "Contradiction");
    let seeded = GenFault::Graded;
    assert!(rt; seeded.number() == 2 && seeded.name() == "Graded");
    let play = PlayFault::SeveralSolutions;
    assert!(rt; play.number() == 14 && play.name() == "SeveralSolutions");
    let load = LoadFault::BadState(2);
    assert!(rt; load.number() == 12 && load.name() == "BadState");
    let line = LineFault::NoGame;
    assert!(rt; line.number() == 3 && line.name() == "NoGame");
    assert!(rt; OutOfMemory.number() == 1 && OutOfMemory.name() == "OutOfMemory");
}

#[test]
fn faults_have_statuses_and_lines(rt: HostRuntime) {
    let start = StartFault::Load(LoadFault::BadState(2));
    assert!(rt; start.number() == 3 && start.name() == "BadState" && start.status() == 3);
    assert!(rt; start.fault_line().as_str() == "refused: BadState 2");
    let end = End::WriteFault;
    assert!(rt; end.number() == 3 && end.name() == "WriteFault" && end.status() == 1);
    assert!(rt; end.fault_line().as_str() == "cannot write the output");
    let command = CommandFault::OutOfMemory;
    assert!(rt; command.number() == 3 && command.name() == "OutOfMemory" && command.status() == 1);
}
