//! Keys of map fields (protobuf encoding guide, "Maps").
ghost use Rattle.std.specs.Prelude.{◌≡◌, refl, Some, IfOk};
ghost use Rattle.std.specs.Cmp.{eq_by_cmp_equiv, partial_equiv_from_equiv, partial_order_from_agreeing_total};
ghost use Rattle.std.specs.Ordering.{eq_by_cmp};
ghost use Rattle.schema.specs.KeyOrder.{key_order};
ghost use Rattle.schema.specs.Pairs.{key_cmp};

use base::{NoMemory, Text};
use std::alloc::Global;
use std::cmp::Ordering;

/// The key of one entry of a map field.
#[derive(Debug, Drop)]
pub enum Key {
    /// An integer key, of any width.
    Number(i128),
    /// A bool key.
    Truth(bool),
    /// A string key.
    Text(Text),
}

/// The order in which a map's entries stand: by number, false before true, by bytes.
impl Ord for Key {
    ghost cmp = { key_cmp };

    ghost total = { key_order };

    ghost matches_partial_cmp = { λ x y. refl };

    ghost matches_eq = { λ x y. refl };

    fn cmp(&self, other: &Key) -> Ordering {
        match (self, other) {
            (Key::Number(a), Key::Number(b)) => a.cmp(b),
            (Key::Number(_), _) => Ordering::Less,
            (Key::Truth(_), Key::Number(_)) => Ordering::Greater,
            (Key::Truth(a), Key::Truth(b)) => a.cmp(b),
            (Key::Truth(_), Key::Text(_)) => Ordering::Less,
            (Key::Text(a), Key::Text(b)) => a.as_str().as_bytes().cmp(b.as_str().as_bytes()),
            (Key::Text(_), _) => Ordering::Greater,
        }
    }
}

impl PartialOrd for Key {
    ghost partial_cmp = { λ x y. Some (key_cmp x y) };

    ghost laws = { partial_order_from_agreeing_total key_cmp key_order (λ x y. refl) (λ x y. refl) };

    fn partial_cmp(&self, other: &Key) -> Option<Ordering> {
        Some(self.cmp(other))
    }
}

impl PartialEq for Key {
    ghost eq = { eq_by_cmp key_cmp };

    ghost laws = { partial_equiv_from_equiv (eq_by_cmp_equiv key_order) };

    fn eq(&self, other: &Key) -> bool {
        self.cmp(other).is_eq()
    }
}

impl Eq for Key {
    ghost laws = { eq_by_cmp_equiv key_order };
}

impl Key {
    /// An equal key.
    pub fn copy(&self, alloc: Global) -> Result<Key, NoMemory>
        ensures { IfOk result (λ k. k ≡ self.now) }
    {
        match self {
            Key::Number(number) => Ok(Key::Number(*number)),
            Key::Truth(truth) => Ok(Key::Truth(*truth)),
            Key::Text(text) => Ok(Key::Text(Text::copy_of(alloc, text.as_str())?)),
        }
    }
}
