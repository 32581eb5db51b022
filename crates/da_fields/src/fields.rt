// Fields.

ghost use Rattle.std.specs.Prelude.{◌≡◌, [], ◌∷◌, ◌++◌, if◌then◌else◌, is_some, IfOk, OnOk, OnErr, MatchOption, option_copied};
ghost use Rattle.da_fields.specs.FieldList.{field, with_field, with_fields, with_defaults, LacksKey, IsPlaceOf, AreDistinct};

use crate::text::Text;
use std::alloc::{AllocError, Global};
use std::marker::Model;

/// The fields of an answer, or the parameters of a request: pairs of a key and a value with distinct keys, in the order
/// in which their keys came. A field with an empty value is written as its key alone.
#[derive(Drop)]
pub struct Fields {
    pairs: Vec<(Text, Text)>,
}

impl Model for Fields {
    ghost use Rattle.da_fields.specs.FieldList.{Pairs, AreDistinct};

    ghost Value = { Pairs };

    ghost view = { λ f. f.pairs.items };

    ghost invariant = { λ f. AreDistinct f.pairs.items };
}

impl Fields {
    /// No fields. It takes no memory.
    pub fn new(alloc: Global) -> Fields
        ensures { result ≡ [] }
    {
        Fields {
            pairs: Vec::new(alloc),
        }
    }

    /// The fields of these pairs, whose keys are distinct.
    pub(crate) fn of_distinct(pairs: Vec<(Text, Text)>) -> Fields
        requires { AreDistinct pairs.items }
        ensures { result ≡ pairs.items }
    {
        Fields { pairs }
    }

    /// The fields as pairs of key and value, in order.
    pub fn pairs(&self) -> &[(Text, Text)]
        ensures pairs { result.now ≡ self.now }
        ensures distinct { AreDistinct self.now }
    {
        &self.pairs
    }

    /// Equal fields.
    pub fn copy(&self, alloc: Global) -> Result<Fields, AllocError>
        ensures { IfOk result (λ fields. fields ≡ self.now) }
    {
        let mut pairs = Vec::new(alloc);
        for (key, value) in &self.pairs {
            pairs.push((key.copy(alloc)?, value.copy(alloc)?))?;
        }
        Ok(Fields { pairs })
    }

    /// Puts the value in its key's place, or the pair last where the key isn't there.
    pub fn set(&mut self, key: Text, value: Text) -> Result<(), AllocError>
        ensures ok { OnOk result (self.new ≡ with_field key value self.old) }
        ensures err { OnErr result (self.new ≡ self.old) }
    {
        match place_of(&self.pairs, key.bytes()) {
            Some(at) => {
                let pair = &mut self.pairs[at];
                pair.1 = value;
            }
            None => self.pairs.push((key, value))?,
        }
        Ok(())
    }

    /// The value of the key. `None` exactly where the key isn't there.
    pub fn get(&self, key: &[u8]) -> Option<&[u8]>
        ensures { option_copied result ≡ field key.now self.now }
    {
        for (name, value) in &self.pairs {
            if key == name.bytes() {
                return Some(value.bytes());
            }
        }
        None
    }

    /// Sets each pair of `more`, in order. Where memory is wanted, the first of them may be set.
    pub(crate) fn set_all(&mut self, alloc: Global, more: &Fields) -> Result<(), AllocError>
        ensures { OnOk result (self.new ≡ with_fields self.old more.now) }
    {
        for (key, value) in more.pairs() {
            self.set(key.copy(alloc)?, value.copy(alloc)?)?;
        }
        Ok(())
    }

    /// Puts each pair of `more` last whose key isn't there yet. Where memory is wanted, the first of them may be there.
    pub(crate) fn set_defaults(&mut self, alloc: Global, more: &Fields) -> Result<(), AllocError>
        ensures { OnOk result (self.new ≡ with_defaults self.old more.now) }
    {
        for (key, value) in more.pairs() {
            self.set_default(alloc, key, value)?;
        }
        Ok(())
    }

    // Puts the pair last where its key isn't there yet.
    fn set_default(&mut self, alloc: Global, key: &Text, value: &Text) -> Result<(), AllocError>
        ensures { OnOk result (self.new ≡ (if is_some (field key.now self.old) then self.old else (self.old ++ (key.now, value.now) ∷ []))) }
    {
        if self.get(key.bytes()).is_some() {
            return Ok(());
        }
        self.set(key.copy(alloc)?, value.copy(alloc)?)
    }
}

// Where the key is.
fn place_of(pairs: &[(Text, Text)], key: &[u8]) -> Option<usize>
    ensures { MatchOption result (LacksKey key.now pairs.now) (λ at. IsPlaceOf key.now pairs.now at) }
{
    for (at, pair) in pairs.iter().enumerate() {
        if key == pair.0.bytes() {
            return Some(at);
        }
    }
    None
}
