// The mechanisms of a server, by their names.
ghost use Rattle.std.specs.Prelude.{◌≡◌, ◌≤◌, ◌∷◌, [], codes, true, length, IfOk};
ghost use Rattle.da_settings.specs.SettingsRanges.{has_mechanism, are_distinct};
ghost use Rattle.da_config.specs.Reading.{IsRead};
ghost use Rattle.da_config.specs.Parts.{part_of};
ghost use Rattle.da_config.specs.Mechanisms.{mechanisms_called, mechanisms_of};

use crate::choices::mechanism_called;
use crate::fault::{ConfigFault, FaultKind};
use crate::part::TomlTable;
use da_fields::Text;
use da_msgs::Mech;
use da_settings::{Mechs, Texts};
use std::alloc::{AllocError, Global};

const KEY: &str = "mechanisms";

fn default(alloc: Global) -> Result<Texts, AllocError>
    ensures { IfOk result (λ names. names ≡ codes "PLAIN" ∷ []) }
{
    let name = Text::from_slice(alloc, b"PLAIN")?;
    Ok(Texts::new(vec![in alloc; name]?))
}

// The mechanisms of these names, where each is the name of one.
fn called(alloc: Global, names: &[Text]) -> Result<Option<Mechs>, AllocError>
    ensures { IfOk result (λ mechs. mechs ≡ mechanisms_called names.now) }
{
    let mut mechs = Vec::new(alloc);
    for name in names {
        let Some(mech) = mechanism_called(name.bytes()) else {
            return Ok(None);
        };
        mechs.push(mech)?;
    }
    Ok(Some(Mechs::new(mechs)))
}

fn has(mech: Mech, mechs: &[Mech]) -> bool
    ensures { result ≡ has_mechanism mech mechs.now }
{
    for other in mechs {
        if mech == *other {
            return true;
        }
    }
    false
}

fn distinct(mechs: &[Mech]) -> bool
    ensures { result ≡ are_distinct mechs.now }
{
    let mut rest = mechs;
    while let Some((first, more)) = rest.split_first() {
        if has(*first, more) {
            return false;
        }
        rest = more;
    }
    true
}

/// The mechanisms, in the order in which they are told.
pub fn mechanisms(alloc: Global, part: &TomlTable<'_>) -> Result<Mechs, ConfigFault>
    ensures read { IsRead (mechanisms_of (part_of part.now)) result }
    ensures fit { IfOk result (λ mechs. (1 ≤ length mechs) × (are_distinct mechs ≡ true)) }
{
    let names = part.texts(alloc, KEY, default(alloc)?)?;
    let Some(mechs) = called(alloc, names.all())? else {
        return Err(part.fault(alloc, KEY, FaultKind::Range));
    };
    if mechs.all().is_empty() || !distinct(mechs.all()) {
        return Err(part.fault(alloc, KEY, FaultKind::Range));
    }
    Ok(mechs)
}
