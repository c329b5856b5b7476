//! The terms of a table, one after another.
use crate::rests::Rests;
use crate::run_term::RunTerm;
use literal_lists::Literal;
use std::marker::Model;
use std::slice;

/// What is left of one run, or of several that are merged.
#[derive(Drop)]
pub enum Left<'a> {
    Listed(slice::Iter<'a, RunTerm>),
    Merged(Rests<'a>),
}

/// Terms in order, which contracts see as the list of those that are left.
pub struct Terms<'a> {
    pub(crate) left: Left<'a>,
}

// an owner's end lets it go by one call, and does not ask which form it has
impl Drop for Terms<'_> {
    fn drop(self) {
        let Terms { left: _left } = self;
    }
}

impl<'a> Model for Terms<'a> {
    ghost use Rattle.std.specs.Prelude.{List};
    ghost use Rattle.term_table.specs.Terms.{Term};
    ghost use Rattle.term_table.specs.Kept.{terms_left};

    ghost Value = { List Term };

    ghost view = { λ t. terms_left t.left };
}

impl<'a> Iterator for Terms<'a> {
    type Item = (&'a [Literal], i128);

    ghost use Rattle.std.specs.Prelude.{length};
    ghost use Rattle.std.specs.Iterator.{at_most};
    ghost use Rattle.std.specs.Map.Iter.{TakesFirst};

    ghost next_gives = { λ s r t. TakesFirst (λ p. (p.0.now, p.1)) s r t };

    ghost remaining = { λ s. at_most (length s) };

    fn next(&mut self) -> Option<(&'a [Literal], i128)> {
        match &mut self.left {
            Left::Listed(rest) => match rest.next() {
                Some(term) => Some((term.as_slice(), term.weight())),
                None => None,
            },
            Left::Merged(rests) => rests.next_term(),
        }
    }
}
