// The settings of a server whose operator sets nothing.

ghost use Rattle.std.specs.Prelude.{◌≡◌};
ghost use Rattle.da_settings.specs.DefaultSettings.{default_passdb};

use da_fields::{Fields, Text};
use da_passdb::{Driver, Passdb, Rule, Skip};
use da_schemes::Scheme;
use std::alloc::Global;

/// A password database that workers answer for, of this number.
pub fn default_passdb(alloc: Global, number: u32) -> Passdb
    ensures { result ≡ default_passdb number }
{
    Passdb {
        number,
        driver: Driver::Worker,
        args: Text::new(Vec::new(alloc)),
        deny: false,
        master: false,
        skip: Skip::Never,
        result_success: Rule::ReturnOk,
        result_failure: Rule::Continue,
        result_internalfail: Rule::Continue,
        default_scheme: Scheme::Plain,
        username_filter: Text::new(Vec::new(alloc)),
        default_fields: Fields::new(alloc),
        override_fields: Fields::new(alloc),
    }
}
