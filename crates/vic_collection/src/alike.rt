//! Logs that can't be told apart.

ghost use Rattle.std.specs.Prelude.{◌≡◌, ℕ, ◌||◌, ◌∷◌, List, IfNone, IfOk, IfSome, OnOk, option_to_list};
ghost use Rattle.std.specs.List.{list_any};
ghost use Rattle.std.specs.Option.{option_map};
ghost use Rattle.vic_collection.specs.Alike.{AreUnlike, IsFirstAlike, first_leading, is_among};
ghost use Rattle.vic_collection.specs.Found.{found_by};
ghost use Rattle.vic_collection.specs.inner.NameSets.{has_name, lead};

use crate::collection::Collection;
use crate::found::{base_of, stem_of};
use crate::joins::{all_leads, lead};
use std::alloc::{AllocError, Global};
use std::collections::{BTreeMap, BTreeSet};

impl Collection {
    /// The first log that has the name of a log before it, or is found by what that is found by.
    pub fn first_alike(&self, alloc: Global) -> Result<Option<usize>, AllocError>
        ensures some { IfOk result (λ k. IfSome k (IsFirstAlike self.now)) }
        ensures none { IfOk result (λ k. IfNone k (AreUnlike self.now)) }
    {
        let leads = all_leads(alloc, &self.catalogue, &self.rows)?;
        let mut names = BTreeSet::new(alloc);
        for (index, survey) in self.surveys().iter().enumerate() {
            let name = survey.name().as_str().as_bytes();
            let key = key_of_name(&leads, name);
            if knows_one(&names, name, key) {
                return Ok(Some(index));
            }
            add_names(&mut names, name, key)?;
        }
        Ok(None)
    }
}

/// The name by which the log with a name is found.
fn key_of_name<'a, 'b>(leads: &BTreeMap<&'b [u8], &'b [u8]>, name: &'a [u8]) -> Option<&'a [u8]>
    ensures { option_map (λ key. key.now) result
        ≡ first_leading (lead leads.now) (found_by name.now) }
{
    if lead(leads, name).is_some() {
        return Some(name);
    }
    let base = base_of(name);
    if lead(leads, base).is_some() {
        return Some(base);
    }
    let stem = stem_of(base);
    if lead(leads, stem).is_some() {
        return Some(stem);
    }
    None
}

/// Whether the name of a log, or that by which it is found, is one of these.
fn knows_one(names: &BTreeSet<&[u8]>, name: &[u8], key: Option<&[u8]>) -> bool
    ensures { result ≡ list_any (has_name names.now)
        (name.now ∷ option_to_list (option_map (λ key. key.now) key.entry)) }
{
    match key {
        Some(key) => names.contains(name) || names.contains(key),
        None => names.contains(name),
    }
}

/// Adds the name of a log, and that by which it is found.
fn add_names<'a>(
    names: &mut BTreeSet<&'a [u8]>,
    name: &'a [u8],
    key: Option<&'a [u8]>,
) -> Result<(), AllocError>
    ensures { OnOk result ((q : List ℕ)
        → has_name names.new q ≡ (has_name names.old q
        || is_among (name.now ∷ option_to_list (option_map (λ key. key.now) key.entry)) q)) }
{
    names.insert(name)?;
    if let Some(key) = key {
        names.insert(key)?;
    }
    Ok(())
}
