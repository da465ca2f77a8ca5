//! Small owned lists, and copies that may find no memory.

ghost use Rattle.std.specs.Prelude.{◌≡◌, List, IfOk};

use crate::refusal::Memory;
use crate::{Rid, TxnId};
use std::marker::Model;

/// A value that can be copied where there is memory.
pub trait Duplicate: Sized {
    /// An equal value, or `Memory`.
    fn copy(&self) -> Result<Self, Memory>
        ensures same { IfOk result (λ copied. copied ≡ self.now) };
}

/// A list that owns its items. Contracts see it as the list itself.
#[derive(Drop)]
pub struct Sequence<X> {
    items: Vec<X>,
}

impl<X> Model for Sequence<X> {
    ghost Value = { List X };

    ghost view = { λ s. s.items.items };
}

impl<X> Sequence<X> {
    /// The list of these items. It takes no memory.
    pub fn of(items: Vec<X>) -> Self
        ensures { result ≡ items.items }
    {
        Sequence { items }
    }

    /// Its items.
    pub fn items(&self) -> &[X]
        ensures { result.now ≡ self.now }
    {
        &self.items
    }

    /// Its items, given back without memory.
    pub fn into_items(self) -> Vec<X>
        ensures { result.items ≡ self }
    {
        self.items
    }
}

impl<X: Duplicate + Drop> Duplicate for Sequence<X> {
    fn copy(&self) -> Result<Self, Memory> {
        Ok(Sequence {
            items: copy_all(&self.items)?,
        })
    }
}

fn copy_all<X: Duplicate + Drop>(items: &Vec<X>) -> Result<Vec<X>, Memory>
    ensures { IfOk result (λ copied. copied.items ≡ items.now.items) }
{
    let mut copied = Vec::with_capacity(*items.allocator(), items.len())?;
    for item in items {
        copied.push(item.copy()?)?;
    }
    Ok(copied)
}

impl Duplicate for u8 {
    fn copy(&self) -> Result<Self, Memory> {
        Ok(*self)
    }
}

impl Duplicate for Rid {
    fn copy(&self) -> Result<Self, Memory> {
        Ok(*self)
    }
}

impl Duplicate for TxnId {
    fn copy(&self) -> Result<Self, Memory> {
        Ok(*self)
    }
}
