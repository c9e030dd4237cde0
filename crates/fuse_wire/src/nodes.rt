//! The numbers of the files that a request is for.
ghost use Rattle.std.specs.Prelude.{◌≡◌, ◌≤◌, [], ◌∷◌, length};

use arrayvec::ArrayVec;
use eden_base::Number;
use std::marker::Model;

/// The numbers of the files that one request is for: at most two, as a RENAME has.
#[derive(Drop)]
pub struct NodeIds {
    numbers: ArrayVec<Number, 2>,
}

impl Model for NodeIds {
    ghost use Rattle.std.specs.Prelude.{◌≤◌, List, length};
    ghost use Rattle.eden_base.specs.declared.number.Number.{Number};

    ghost Value = { List Number };

    ghost view = { λ nodes. nodes.numbers.items };

    ghost invariant = { λ nodes. length nodes.numbers.items ≤ 2 };
}

impl NodeIds {
    /// Makes an empty list.
    pub(crate) fn none() -> NodeIds
        ensures { result ≡ [] }
    {
        NodeIds {
            numbers: ArrayVec::new(),
        }
    }

    /// Makes a list of one number.
    pub(crate) fn one(number: Number) -> NodeIds
        ensures { result ≡ number ∷ [] }
    {
        let mut numbers = ArrayVec::new();
        numbers.push(number);
        NodeIds { numbers }
    }

    /// Makes a list of two numbers, in this order.
    pub(crate) fn two(first: Number, second: Number) -> NodeIds
        ensures { result ≡ first ∷ second ∷ [] }
    {
        let mut numbers = ArrayVec::new();
        numbers.push(first);
        numbers.push(second);
        NodeIds { numbers }
    }

    /// Returns the numbers in their order.
    pub fn as_slice(&self) -> &[Number]
        ensures numbers { result.now ≡ self.now }
        ensures at_most { length result.now ≤ 2 }
    {
        self.numbers.as_slice()
    }
}
