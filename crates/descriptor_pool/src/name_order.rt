//! Full names in order: by their bytes from the last one on, since names of one scope differ at their
//! ends.
ghost use Rattle.std.specs.Prelude.{◌≡◌, drop, refl, reverse, slice_get};
ghost use Rattle.std.specs.Str.{bytes_eq};
ghost use Rattle.std.specs.Ordering.{as_partial_cmp};
ghost use Rattle.descriptor_pool.specs.NameOrder.{bytes_eq_laws, bytes_eq_partial_laws, ties_are_equal, name_cmp, name_cmp_partial, name_cmp_total};

use crate::full_name::FullName;
use std::cmp::Ordering;
use std::marker::Model;

/// What is left of a full name that is gone over from its last byte on.
#[derive(Drop)]
struct Backwards<'a> {
    name: &'a [u8],
    around: Option<&'a FullName<'a>>,
}

impl<'a> Model for Backwards<'a> {
    ghost use Rattle.std.specs.Prelude.{List, ℕ, ◌++◌, reverse};
    ghost use Rattle.descriptor_pool.specs.NameScopes.{behind};

    ghost Value = { List ℕ };

    ghost view = { λ b. reverse b.name.now ++ behind b.around };
}

impl<'a> Backwards<'a> {
    /// The whole name.
    fn of(name: &'a FullName<'a>) -> Backwards<'a>
        ensures { result ≡ reverse name.now }
    {
        Backwards {
            name: name.name.as_bytes(),
            around: name.around,
        }
    }

    /// Takes the next byte, where there is one.
    fn next(&mut self) -> Option<u8>
        ensures byte { result ≡ slice_get self.old 0 }
        ensures rest { self.new ≡ drop 1 self.old }
    {
        if let Some((last, front)) = self.name.split_last() {
            self.name = front;
            return Some(*last);
        }
        match self.around {
            Some(around) => {
                self.name = around.name.as_bytes();
                self.around = around.around;
                Some(b'.')
            }
            None => None,
        }
    }
}

/// How two full names compare.
pub(crate) fn compare(a: &FullName<'_>, b: &FullName<'_>) -> Ordering
    ensures { result ≡ name_cmp a.now b.now }
{
    let mut left = Backwards::of(a);
    let mut right = Backwards::of(b);
    loop {
        match (left.next(), right.next()) {
            (Some(x), Some(y)) => {
                if x != y {
                    return x.cmp(&y);
                }
            }
            (None, None) => return Ordering::Equal,
            (None, Some(_)) => return Ordering::Less,
            (Some(_), None) => return Ordering::Greater,
        }
    }
}

impl<'a> PartialEq for FullName<'a> {
    ghost eq = { bytes_eq };

    ghost laws = { bytes_eq_partial_laws };

    fn eq(&self, other: &FullName<'a>) -> bool {
        compare(self, other) == Ordering::Equal
    }
}

impl<'a> Eq for FullName<'a> {
    ghost laws = { bytes_eq_laws };
}

impl<'a> PartialOrd for FullName<'a> {
    ghost partial_cmp = { as_partial_cmp name_cmp };

    ghost laws = { name_cmp_partial };

    fn partial_cmp(&self, other: &FullName<'a>) -> Option<Ordering> {
        Some(compare(self, other))
    }
}

impl<'a> Ord for FullName<'a> {
    ghost cmp = { name_cmp };

    ghost total = { name_cmp_total };

    ghost matches_partial_cmp = { λ x y. refl };

    ghost matches_eq = { ties_are_equal };

    fn cmp(&self, other: &FullName<'a>) -> Ordering {
        compare(self, other)
    }
}
