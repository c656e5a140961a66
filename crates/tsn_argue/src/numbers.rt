//! A number for each stream, in a view that goes back to the ground after each step.
ghost use Rattle.std.specs.Prelude.{◌≡◌, ◌<◌, [], length, slice_index_or, slice_set, pos, OnOk, IfOk};
ghost use Rattle.tsn_argue.specs.Numbers.{AreTouched};

use std::alloc::{AllocError, Global};
use std::marker::Model;
use tsn_model::NoMemory;

/// The numbers of the ground and of the view, and the streams whose numbers differ in them. To go back, or to make the view
/// the ground, takes no longer than the changes took.
#[derive(Drop)]
pub struct Numbers {
    base: Vec<i128>,
    view: Vec<i128>,
    touched: Vec<usize>,
}

impl Model for Numbers {
    ghost use Rattle.tsn_argue.specs.Numbers.{Pair, AreTouched};

    ghost Value = { Pair };

    ghost view = { λ numbers. record { base = numbers.base.items; view = numbers.view.items } };

    ghost invariant = { λ numbers. AreTouched numbers.base.items numbers.view.items numbers.touched.items };
}

impl Numbers {
    /// These numbers, on the ground and in the view.
    pub fn of(alloc: Global, list: Vec<i128>) -> Result<Numbers, NoMemory>
        ensures base { IfOk result (λ numbers. numbers.base ≡ list.items) }
        ensures view { IfOk result (λ numbers. numbers.view ≡ list.items) }
    {
        let view = list.as_slice().to_vec(alloc)?;
        Ok(Numbers {
            base: list,
            view,
            touched: Vec::new(alloc),
        })
    }

    /// How many streams there are.
    pub fn len(&self) -> usize
        ensures { result ≡ length self.now.view }
    {
        self.view.len()
    }

    /// The number of a stream in the view.
    pub fn at(&self, stream: usize) -> i128
        requires { stream < length self.now.view }
        ensures { result ≡ slice_index_or self.now.view stream (pos 0) }
    {
        self.view[stream]
    }

    /// The same, and 0 where there is no such stream.
    pub fn at_or_zero(&self, stream: usize) -> i128
        ensures { result ≡ slice_index_or self.now.view stream (pos 0) }
    {
        match self.view.get(stream) {
            Some(number) => *number,
            None => 0,
        }
    }

    /// Changes the number of a stream in the view.
    pub fn set(&mut self, stream: usize, number: i128) -> Result<(), NoMemory>
        requires { stream < length self.old.view }
        ensures base { self.new.base ≡ self.old.base }
        ensures view { OnOk result (self.new.view ≡ slice_set self.old.view stream number) }
    {
        if let Err(error) = self.touched.push(stream) {
            return Err(AllocError::from(error).into());
        }
        self.view[stream] = number;
        Ok(())
    }

    /// Makes the view the ground once more.
    pub fn go_back(&mut self)
        ensures base { self.new.base ≡ self.old.base }
        ensures view { self.new.view ≡ self.old.base }
    {
        carry_over(
            self.base.as_slice(),
            self.view.as_mut_slice(),
            &mut self.touched,
        );
    }

    /// Makes the view the ground.
    pub fn keep(&mut self)
        ensures base { self.new.base ≡ self.old.view }
        ensures view { self.new.view ≡ self.old.view }
    {
        carry_over(
            self.view.as_slice(),
            self.base.as_mut_slice(),
            &mut self.touched,
        );
    }
}

/// Makes the second list equal to the first one, where they differ only for streams that were touched.
fn carry_over(from: &[i128], into: &mut [i128], touched: &mut Vec<usize>)
    requires { AreTouched from.now into.old touched.old.items }
    ensures into { into.new ≡ from.now }
    ensures touched { touched.new.items ≡ [] }
{
    while let Some(stream) = touched.pop() {
        into[stream] = from[stream];
    }
}
