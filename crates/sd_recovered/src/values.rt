//! The table of the pages' values.

ghost use Rattle.std.specs.Prelude.{◌≡◌, ℕ, None, cond, eqb, length, IfOk, OnOk};
ghost use Rattle.sd_base.specs.declared.ids.Rid.{Rid};
ghost use Rattle.sd_model.specs.Tables.{contents};
ghost use Rattle.sd_chain.specs.Pages.{value};
ghost use Rattle.sd_recovered.specs.Values.{values_in};

use sd_base::{Bytes, Memory, PAGES, PageNo, Rid};
use sd_model::Table;
use sd_page::Image;
use std::alloc::Global;

/// The table of the pages' values.
pub fn table_of(alloc: Global, pages: &[Image]) -> Result<Table, Memory>
    requires { length pages.now ≡ 1024 }
    ensures { IfOk result (λ table. (r : Rid) → contents table r ≡ values_in pages.now r.page r.slot) }
{
    let mut table = Table::new(alloc);
    for p in 0..PAGES {
        let page = PageNo::new(p).unwrap();
        put_page(alloc, &mut table, page, &pages[p as usize])?;
    }
    Ok(table)
}

// Puts the values of a page into a table without records of the page.
fn put_page(alloc: Global, table: &mut Table, page: PageNo, image: &Image) -> Result<(), Memory>
    requires { (s : ℕ) → contents table.old (record { page = page; slot = s }) ≡ None }
    ensures { OnOk result ((r : Rid) → contents table.new r ≡ cond (eqb r.page page) (value image.now.slots r.slot) (contents table.old r)) }
{
    for slot in 0..image.count() {
        if let Some(bytes) = image.value(slot) {
            let copy = Bytes::copy_of(alloc, bytes)?;
            table.put(Rid { page, slot }, copy)?;
        }
    }
    Ok(())
}
