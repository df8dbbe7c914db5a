//! Sets of states, a bit for each.

ghost use Rattle.std.specs.Prelude.{◌≡◌, ◌*◌, ◌<◌, ◌≢◌, ℕ, true, IfOk, length, vec_len};
ghost use Rattle.pointer_flow.specs.States.{IsState};
ghost use Rattle.pointer_flow.specs.Steps.{AreUnmarked};
ghost use Rattle.pointer_flow.specs.Tables.{IsMarked, IsTable, is_bit_set, state_number};
ghost use Rattle.pointer_flow.specs.declared.states.State.{State};

use crate::states::{STATES, State, state_number};
use std::alloc::{AllocError, Global};

/// The bits of one number of a table.
const BITS: usize = 64;

/// A table of states: one bit for each.
#[derive(Drop)]
pub(crate) struct StateSet {
    pub bits: Vec<u64>,
    ghost sized: { IsTable bits.items },
}

impl StateSet {
    /// A table that has no state.
    pub fn new(alloc: Global) -> Result<StateSet, AllocError>
        ensures { IfOk result (λ table. AreUnmarked table.bits.items) }
    {
        let bits = no_bits(alloc, STATES / BITS)?;
        Ok(StateSet { bits })
    }

    pub fn has(&self, state: &State) -> bool
        requires { IsState state.now }
        ensures { result ≡ is_bit_set self.now.bits.items (state_number state.now) }
    {
        is_bit_set(&self.bits, state_number(state))
    }

    pub fn insert(&mut self, state: &State)
        requires { IsState state.now }
        ensures size { vec_len self.new.bits ≡ vec_len self.old.bits }
        ensures marked { IsMarked self.new.bits.items state.now }
        ensures others { (number : ℕ) → number ≢ state_number state.now
            → is_bit_set self.new.bits.items number ≡ is_bit_set self.old.bits.items number }
    {
        set_bit(&mut self.bits, state_number(state));
    }
}

/// Whether the bit of a number is set.
fn is_bit_set(bits: &[u64], number: usize) -> bool
    requires { number < 64 * length bits.now }
    ensures { result ≡ is_bit_set bits.now number }
{
    bits[number / BITS] >> (number % BITS) & 1 == 1
}

/// Sets the bit of a number.
fn set_bit(bits: &mut [u64], number: usize)
    requires { number < 64 * length bits.old }
    ensures marked { is_bit_set bits.new number ≡ true }
    ensures others { (other : ℕ) → other ≢ number → is_bit_set bits.new other ≡ is_bit_set bits.old other }
{
    bits[number / BITS] |= 1 << (number % BITS);
}

/// No bit is set.
#[tactic(auto, using(crate::proofs::BitLemmas::zeros_unmarked))]
fn no_bits(alloc: Global, count: usize) -> Result<Vec<u64>, AllocError>
    ensures none { IfOk result (λ bits. AreUnmarked bits.items) }
    ensures size { IfOk result (λ bits. vec_len bits ≡ count) }
{
    let bits = vec![in alloc; 0u64; count]?;
    Ok(bits)
}
