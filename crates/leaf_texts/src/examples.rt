//! Worked examples, as laws.
ghost use Rattle.leaf_texts.specs.LeafExamples.{LeafFaultsHold, LeafReadingsHold};

use known_types::examples::{bytes_examples, known_readings};
use scalar_texts::examples::{number_examples, other_kind_examples};

/// Texts of leaves that mean an item, one of each kind of leaf.
pub fn leaf_readings()
    ensures { LeafReadingsHold }
{
    number_examples();
    other_kind_examples();
    bytes_examples();
    known_readings();
}

/// Texts of leaves with a fault, one of each kind of fault, and a text of a message that is no leaf.
pub fn leaf_faults()
    ensures { LeafFaultsHold }
{
    number_examples();
    other_kind_examples();
    known_readings();
}
