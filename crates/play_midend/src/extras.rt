//! The bytes that a session keeps for a save file.

use std::marker::Model;

/// The bytes that a session keeps for a save file and never looks into.
///
/// Contracts see the bytes alone, and not how much room each vector has: sessions that keep equal bytes are equal.
#[derive(Drop, Debug)]
pub struct Extras {
    /// The seed of the usual program's generator.
    pub seed: Option<Vec<u8>>,
    /// The bytes that that program's solver needs besides.
    pub auxinfo: Option<Vec<u8>>,
    /// The state of its user interface.
    pub ui: Option<Vec<u8>>,
    /// The time that was played.
    pub time: Option<Vec<u8>>,
}

impl Model for Extras {
    ghost use Rattle.std.specs.Prelude.{option_map, vec_items};
    ghost use Rattle.play_midend.specs.Extras.{ExtrasValue};

    ghost Value = { ExtrasValue };

    ghost view = { λ extras. record {
      seed = option_map vec_items extras.seed;
      auxinfo = option_map vec_items extras.auxinfo;
      ui = option_map vec_items extras.ui;
      time = option_map vec_items extras.time;
    } };
}
