// The names of a login.

ghost use Rattle.std.specs.Prelude.{◌≡◌, IfOk, if◌then◌else◌, None, option_map};
ghost use Rattle.da_base.specs.Words.{is_empty};
ghost use Rattle.da_names.specs.Names.{normal};
ghost use Rattle.da_request.specs.Attempts.{names, names_split, both_normal, split_at};

use da_fields::Text;
use da_names::{normal, split_master};
use da_settings::Settings;
use std::alloc::{AllocError, Global};

/// The user, and the master of a master login. `None` exactly where the names aren't valid. The first separator splits a
/// name into user and master; without a split another authorization identity is the user, and the name the master.
#[tactic(auto, unfolding(crate::specs::Attempts::names))]
pub(crate) fn names(
    alloc: Global,
    settings: &Settings,
    name: &[u8],
    authzid: &[u8],
) -> Result<Option<(Text, Option<Text>)>, AllocError>
    ensures { IfOk result (λ value. value ≡ names settings.now name.now authzid.now) }
{
    match split_at(settings.master_separator, name) {
        None => whole_name(alloc, settings, name, authzid),
        Some((user, master)) => name_in_parts(alloc, settings, user, master, authzid),
    }
}

// The names where the separator doesn't split the name.
fn whole_name(
    alloc: Global,
    settings: &Settings,
    name: &[u8],
    authzid: &[u8],
) -> Result<Option<(Text, Option<Text>)>, AllocError>
    ensures { IfOk result (λ value. value ≡ names_split (normal settings.now.username_chars settings.now.username_lower) name.now authzid.now None) }
{
    if authzid.is_empty() || authzid == name {
        user_alone(alloc, settings, name)
    } else {
        both_normal(alloc, settings, authzid, name)
    }
}

fn user_alone(
    alloc: Global,
    settings: &Settings,
    name: &[u8],
) -> Result<Option<(Text, Option<Text>)>, AllocError>
    ensures { IfOk result (λ value. value ≡ option_map (λ user. (user, None)) (normal settings.now.username_chars settings.now.username_lower name.now)) }
{
    match normal_name(alloc, settings, name)? {
        Some(user) => Ok(Some((user, None))),
        None => Ok(None),
    }
}

// The names where the separator splits the name in these parts.
fn name_in_parts(
    alloc: Global,
    settings: &Settings,
    user: &[u8],
    master: &[u8],
    authzid: &[u8],
) -> Result<Option<(Text, Option<Text>)>, AllocError>
    ensures { IfOk result (λ value. value ≡ (if is_empty authzid.now then both_normal (normal settings.now.username_chars settings.now.username_lower user.now) (normal settings.now.username_chars settings.now.username_lower master.now) else None)) }
{
    if authzid.is_empty() {
        both_normal(alloc, settings, user, master)
    } else {
        Ok(None)
    }
}

fn both_normal(
    alloc: Global,
    settings: &Settings,
    user: &[u8],
    master: &[u8],
) -> Result<Option<(Text, Option<Text>)>, AllocError>
    ensures { IfOk result (λ value. value ≡ both_normal (normal settings.now.username_chars settings.now.username_lower user.now) (normal settings.now.username_chars settings.now.username_lower master.now)) }
{
    let Some(user) = normal_name(alloc, settings, user)? else {
        return Ok(None);
    };
    match normal_name(alloc, settings, master)? {
        Some(master) => Ok(Some((user, Some(master)))),
        None => Ok(None),
    }
}

fn normal_name(alloc: Global, settings: &Settings, name: &[u8]) -> Result<Option<Text>, AllocError>
    ensures { IfOk result (λ made. made ≡ normal settings.now.username_chars settings.now.username_lower name.now) }
{
    let made = normal(
        alloc,
        name,
        settings.username_chars.bytes(),
        settings.username_lower,
    )?;
    match made {
        Some(made) => Ok(Some(Text::new(made))),
        None => Ok(None),
    }
}

fn split_at(separator: Option<u8>, name: &[u8]) -> Option<(&[u8], &[u8])>
    ensures { option_map (λ parts. (parts.0.now, parts.1.now)) result ≡ split_at separator name.now }
{
    match separator {
        None => None,
        Some(separator) => split_master(name, separator),
    }
}
