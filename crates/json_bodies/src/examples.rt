//! Worked examples, as laws.
ghost use Rattle.json_bodies.specs.BodyExamples.{BodyFaultsHold, BodyMeaningsHold, FrontFaultsHold, PlacedFaultsHold};

use crate::laws::sound_fronts_show_no_fault;
use json_events::Reader;
use json_events::laws::{
    bytes_have_one_list_of_tokens, fronts_have_one_list_of_tokens, written_texts_mean_their_values,
};
use json_meanings::laws::readings_hold;
use std::alloc::Global;

/// Bodies that mean a value.
pub fn body_meanings()
    ensures { BodyMeaningsHold }
{
    written_texts_mean_their_values();
}

/// Bodies with a fault, from place 0 and from place 100 on. The reader that tells what is a text takes no memory.
pub fn body_faults(alloc: Global)
    ensures from_0 { BodyFaultsHold }
    ensures from_100 { PlacedFaultsHold }
{
    readings_hold();
    fronts_have_one_list_of_tokens();
    bytes_have_one_list_of_tokens();
    let _reader = Reader::new(alloc);
}

/// What bytes show before they end.
pub fn front_faults(alloc: Global)
    ensures { FrontFaultsHold }
{
    readings_hold();
    fronts_have_one_list_of_tokens();
    bytes_have_one_list_of_tokens();
    sound_fronts_show_no_fault();
    let _reader = Reader::new(alloc);
}
