// Lists, as they stand in entries, outputs and settings.

ghost use Rattle.std.specs.Prelude.{◌≡◌, ◌++◌, ◌∷◌, [], IfOk, OnOk};

use da_fields::Text;
use da_msgs::Mech;
use da_passdb::Passdb;
use da_userdb::Userdb;
use std::alloc::{AllocError, Global};
use std::marker::Model;

/// Mechanisms.
#[derive(Drop)]
pub struct Mechs {
    items: Vec<Mech>,
}

impl Model for Mechs {
    ghost use Rattle.std.specs.Prelude.{List};
    ghost use Rattle.da_msgs.specs.declared.kinds.Mech.{Mech};

    ghost Value = { List Mech };

    ghost view = { λ m. m.items.items };
}

impl Mechs {
    /// The list of these mechanisms. It takes no memory.
    pub fn new(items: Vec<Mech>) -> Mechs
        ensures { result ≡ items.items }
    {
        Mechs { items }
    }

    /// All mechanisms, in order.
    pub fn all(&self) -> &[Mech]
        ensures { result.now ≡ self.now }
    {
        &self.items
    }

    /// Equal mechanisms.
    pub fn copy(&self, alloc: Global) -> Result<Mechs, AllocError>
        ensures { IfOk result (λ copy. copy ≡ self.now) }
    {
        Ok(Mechs {
            items: Vec::from_slice(alloc, &self.items)?,
        })
    }
}

/// Texts.
#[derive(Drop)]
pub struct Texts {
    items: Vec<Text>,
}

impl Model for Texts {
    ghost use Rattle.std.specs.Prelude.{List, ℕ};

    ghost Value = { List (List ℕ) };

    ghost view = { λ t. t.items.items };
}

impl Texts {
    /// The list of these texts. It takes no memory.
    pub fn new(items: Vec<Text>) -> Texts
        ensures { result ≡ items.items }
    {
        Texts { items }
    }

    /// All texts, in order.
    pub fn all(&self) -> &[Text]
        ensures { result.now ≡ self.now }
    {
        &self.items
    }

    /// One text more, as the last.
    pub fn push(&mut self, text: Text) -> Result<(), AllocError>
        ensures { OnOk result (self.new ≡ self.old ++ text ∷ []) }
    {
        self.items.push(text)?;
        Ok(())
    }

    /// Equal texts.
    pub fn copy(&self, alloc: Global) -> Result<Texts, AllocError>
        ensures { IfOk result (λ copy. copy ≡ self.now) }
    {
        let mut items = Vec::new(alloc);
        for text in &self.items {
            items.push(text.copy(alloc)?)?;
        }
        Ok(Texts { items })
    }
}

/// Password databases.
#[derive(Drop)]
pub struct Passdbs {
    items: Vec<Passdb>,
}

impl Model for Passdbs {
    ghost use Rattle.std.specs.Prelude.{List};
    ghost use Rattle.da_passdb.specs.declared.database.Passdb.{Passdb};

    ghost Value = { List Passdb };

    ghost view = { λ d. d.items.items };
}

impl Passdbs {
    /// The list of these databases. It takes no memory.
    pub fn new(items: Vec<Passdb>) -> Passdbs
        ensures { result ≡ items.items }
    {
        Passdbs { items }
    }

    /// All databases, in order.
    pub fn all(&self) -> &[Passdb]
        ensures { result.now ≡ self.now }
    {
        &self.items
    }

    /// Equal databases.
    pub fn copy(&self, alloc: Global) -> Result<Passdbs, AllocError>
        ensures { IfOk result (λ copy. copy ≡ self.now) }
    {
        let mut items = Vec::new(alloc);
        for db in &self.items {
            items.push(db.copy(alloc)?)?;
        }
        Ok(Passdbs { items })
    }
}

/// User databases.
#[derive(Drop)]
pub struct Userdbs {
    items: Vec<Userdb>,
}

impl Model for Userdbs {
    ghost use Rattle.std.specs.Prelude.{List};
    ghost use Rattle.da_userdb.specs.declared.database.Userdb.{Userdb};

    ghost Value = { List Userdb };

    ghost view = { λ d. d.items.items };
}

impl Userdbs {
    /// The list of these databases. It takes no memory.
    pub fn new(items: Vec<Userdb>) -> Userdbs
        ensures { result ≡ items.items }
    {
        Userdbs { items }
    }

    /// All databases, in order.
    pub fn all(&self) -> &[Userdb]
        ensures { result.now ≡ self.now }
    {
        &self.items
    }

    /// Equal databases.
    pub fn copy(&self, alloc: Global) -> Result<Userdbs, AllocError>
        ensures { IfOk result (λ copy. copy ≡ self.now) }
    {
        let mut items = Vec::new(alloc);
        for db in &self.items {
            items.push(db.copy(alloc)?)?;
        }
        Ok(Userdbs { items })
    }
}
