//! The ordinal of each name that was begun, found by one search at most.

ghost use Rattle.std.specs.Prelude.{◌≡◌, ◌↔◌, ◌<◌, ℕ, List, None, Some, All, IsTrue, IfSome, IfOk, OnOk, OnErr, cond};
ghost use Rattle.std.specs.BTreeMap.{get, is_at};
ghost use Rattle.std.specs.List.Sorted.{IsStrictlySortedBy};
ghost use Rattle.std.specs.Map.{keys_of, lookup, update};
ghost use Rattle.std.specs.Ordering.{is_eq, nat_cmp};
ghost use Rattle.std.specs.Str.{bytes_eq};
ghost use Rattle.std.proofs.lemmas.Map.Keys.{IsStrictlySortedBy-prop};
ghost use Rattle.sd_script.specs.Forms.{IsName};
ghost use Rattle.sd_script.specs.Ordinals.{ordinal_at};
ghost use Rattle.sd_script.specs.Packed.{packed_of};
ghost use Rattle.sd_script.specs.declared.newest.Newest.{Newest};

use crate::newest::Newest;
use crate::packed::packed;
use sd_base::{Bytes, Memory};
use std::alloc::Global;
use std::collections::BTreeMap;

/// A map from names to ordinals, whose keys are the names' numbers. A name above all others of the list comes to its end, any other
/// one into the tree: the names of many scripts rise. The newest is kept beside them: many lines speak of the name that was begun
/// last.
#[derive(Drop)]
pub struct Names {
    rising: Vec<(u128, u32)>,
    others: BTreeMap<u128, u32>,
    newest: Option<Newest>,
    ghost rises: { IsStrictlySortedBy nat_cmp (keys_of rising.items) } by { IsStrictlySortedBy-prop nat_cmp (keys_of rising.items) },
    ghost newest_is: { (one : Newest) → newest ≡ Some one → ordinal_at rising.items others (packed_of one.name) ≡ Some one.ordinal },
}

impl Names {
    ghost use Rattle.sd_script.specs.Known.{known};

    /// No names.
    pub fn new(alloc: Global) -> Names
        ensures { (name : List ℕ) → known result name ≡ None }
    {
        Names {
            rising: Vec::new(alloc),
            others: BTreeMap::new(alloc),
            newest: None,
        }
    }

    /// The ordinal of this word, where it is the name that was begun last.
    pub(crate) fn newest(&self, word: &[u8]) -> Option<u32>
        ensures name { IfSome result (λ _. IsName word.now) }
        ensures ordinal { IfSome result (λ ordinal. known self.now word.now ≡ Some ordinal) }
    {
        match &self.newest {
            Some(newest) => newest.get(word),
            None => None,
        }
    }

    /// The ordinal of this name.
    #[inline(never)]
    pub(crate) fn get(&self, name: &[u8]) -> Option<u32>
        requires { IsName name.now }
        ensures { result ≡ known self.now name.now }
    {
        found(&self.rising, &self.others, packed(name))
    }

    /// Gives the name this ordinal, where it has none, and tells whether it had none. Else, and after `Memory`, all is as before.
    pub fn add(&mut self, name: &[u8], ordinal: u32) -> Result<bool, Memory>
        requires { IsName name.now }
        ensures new { IfOk result (λ new. IsTrue new ↔ (known self.old name.now ≡ None)) }
        ensures known { IfOk result (λ new. IsTrue new → (other : List ℕ) → IsName other →
            known self.new other ≡ update bytes_eq (known self.old) name.now (Some ordinal) other) }
        ensures same { IfOk result (λ new. ¬ IsTrue new → (other : List ℕ) → known self.new other ≡ known self.old other) }
        ensures stays { OnErr result ((other : List ℕ) → known self.new other ≡ known self.old other) }
    {
        let copied = Bytes::copy_of(*self.rising.allocator(), name)?;
        let key = packed(name);
        let new = put(&mut self.rising, &mut self.others, key, ordinal)?;
        self.newest = if new {
            Some(Newest::of(copied, ordinal))
        } else {
            None
        };
        Ok(new)
    }
}

// The ordinal at a key.
fn found(rising: &[(u128, u32)], others: &BTreeMap<u128, u32>, key: u128) -> Option<u32>
    requires { IsStrictlySortedBy nat_cmp (keys_of rising.now) }
    ensures { result ≡ ordinal_at rising.now others.now key }
{
    match among(rising, key) {
        Some(ordinal) => Some(ordinal),
        None => beside(others, key),
    }
}

// The ordinal at a key of the tree.
fn beside(others: &BTreeMap<u128, u32>, key: u128) -> Option<u32>
    ensures { result ≡ get nat_cmp others.now key }
{
    others.get(&key).copied()
}

// The ordinal at a key of these.
fn among(rising: &[(u128, u32)], key: u128) -> Option<u32>
    requires { IsStrictlySortedBy nat_cmp (keys_of rising.now) }
    ensures { result ≡ lookup (is_at (nat_cmp key)) rising.now }
{
    if is_above(rising, key) {
        return None;
    }
    let place = rising.partition_point(|one| one.0 < key);
    if place < rising.len() && rising[place].0 == key {
        return Some(rising[place].1);
    }
    None
}

// Whether a key is above all of these.
fn is_above(rising: &[(u128, u32)], key: u128) -> bool
    requires { IsStrictlySortedBy nat_cmp (keys_of rising.now) }
    ensures { IsTrue result ↔ All (λ one. one.0 < key) rising.now }
{
    match rising.last() {
        Some((last, _)) => *last < key,
        None => true,
    }
}

// Gives a key this ordinal, where it has none, and tells whether it had none. Else, and after `Memory`, all is as before.
fn put(
    rising: &mut Vec<(u128, u32)>,
    others: &mut BTreeMap<u128, u32>,
    key: u128,
    ordinal: u32,
) -> Result<bool, Memory>
    requires { IsStrictlySortedBy nat_cmp (keys_of rising.old.items) }
    ensures rises { IsStrictlySortedBy nat_cmp (keys_of rising.new.items) }
    ensures new { IfOk result (λ new. IsTrue new ↔ (ordinal_at rising.old.items others.old key ≡ None)) }
    ensures ok { IfOk result (λ new. IsTrue new → (other : ℕ) → ordinal_at rising.new.items others.new other
        ≡ cond (is_eq (nat_cmp key other)) (Some ordinal) (ordinal_at rising.old.items others.old other)) }
    ensures same { IfOk result (λ new. ¬ IsTrue new → (other : ℕ) → ordinal_at rising.new.items others.new other
        ≡ ordinal_at rising.old.items others.old other) }
    ensures stays { OnErr result ((other : ℕ) → ordinal_at rising.new.items others.new other
        ≡ ordinal_at rising.old.items others.old other) }
{
    if is_above(rising, key) {
        push(rising, others, key, ordinal)
    } else {
        insert(rising, others, key, ordinal)
    }
}

// The same of a key above all that rise.
fn push(
    rising: &mut Vec<(u128, u32)>,
    others: &BTreeMap<u128, u32>,
    key: u128,
    ordinal: u32,
) -> Result<bool, Memory>
    requires rises { IsStrictlySortedBy nat_cmp (keys_of rising.old.items) }
    requires above { All (λ one. one.0 < key) rising.old.items }
    ensures rises { IsStrictlySortedBy nat_cmp (keys_of rising.new.items) }
    ensures new { IfOk result (λ new. IsTrue new ↔ (ordinal_at rising.old.items others.now key ≡ None)) }
    ensures ok { IfOk result (λ new. IsTrue new → (other : ℕ) → ordinal_at rising.new.items others.now other
        ≡ cond (is_eq (nat_cmp key other)) (Some ordinal) (ordinal_at rising.old.items others.now other)) }
    ensures same { IfOk result (λ new. ¬ IsTrue new → rising.new.items ≡ rising.old.items) }
    ensures stays { OnErr result (rising.new.items ≡ rising.old.items) }
{
    if beside(others, key).is_some() {
        return Ok(false);
    }
    rising.push((key, ordinal))?;
    Ok(true)
}

// The same of a key that isn't above all that rise.
fn insert(
    rising: &[(u128, u32)],
    others: &mut BTreeMap<u128, u32>,
    key: u128,
    ordinal: u32,
) -> Result<bool, Memory>
    requires { IsStrictlySortedBy nat_cmp (keys_of rising.now) }
    ensures new { IfOk result (λ new. IsTrue new ↔ (ordinal_at rising.now others.old key ≡ None)) }
    ensures ok { IfOk result (λ new. IsTrue new → (other : ℕ) → ordinal_at rising.now others.new other
        ≡ cond (is_eq (nat_cmp key other)) (Some ordinal) (ordinal_at rising.now others.old other)) }
    ensures same { IfOk result (λ new. ¬ IsTrue new → (other : ℕ) → ordinal_at rising.now others.new other
        ≡ ordinal_at rising.now others.old other) }
    ensures stays { OnErr result ((other : ℕ) → ordinal_at rising.now others.new other ≡ ordinal_at rising.now others.old other) }
{
    if found(rising, others, key).is_some() {
        return Ok(false);
    }
    others.insert(key, ordinal)?;
    Ok(true)
}
