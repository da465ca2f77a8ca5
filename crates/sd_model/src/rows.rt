//! The rows of a list: records with their values.

ghost use Rattle.std.specs.Prelude.{◌≡◌, IfOk};

use sd_base::{Bytes, Duplicate, Memory, Rid};
use std::marker::Model;

/// A list that owns records with their values. Contracts see it as the list itself.
#[derive(Drop)]
pub struct Rows {
    items: Vec<(Rid, Bytes)>,
}

impl Model for Rows {
    ghost use Rattle.std.specs.Prelude.{List, ℕ};
    ghost use Rattle.sd_base.specs.declared.ids.Rid.{Rid};

    ghost Value = { List (Rid × List ℕ) };

    ghost view = { λ r. r.items.items };
}

impl Rows {
    /// The list of these rows. It takes no memory.
    pub fn of(items: Vec<(Rid, Bytes)>) -> Self
        ensures { result ≡ items.items }
    {
        Rows { items }
    }

    /// Its rows.
    pub fn items(&self) -> &[(Rid, Bytes)]
        ensures { result.now ≡ self.now }
    {
        &self.items
    }

    /// Its rows, given back without memory.
    pub fn into_items(self) -> Vec<(Rid, Bytes)>
        ensures { result.items ≡ self }
    {
        self.items
    }
}

impl Duplicate for Rows {
    fn copy(&self) -> Result<Self, Memory> {
        Ok(Rows {
            items: copy_all(&self.items)?,
        })
    }
}

fn copy_all(rows: &Vec<(Rid, Bytes)>) -> Result<Vec<(Rid, Bytes)>, Memory>
    ensures { IfOk result (λ copied. copied.items ≡ rows.now.items) }
{
    let mut copied = Vec::with_capacity(*rows.allocator(), rows.len())?;
    for row in rows {
        copied.push((row.0, row.1.copy()?))?;
    }
    Ok(copied)
}
