// Templates.

ghost use Rattle.std.specs.Prelude.{◌≡◌, ◌++◌, IfOk, OnOk, IsTrue};
ghost use Rattle.da_base.specs.Words.{before_byte};
ghost use Rattle.da_names.specs.Templates.{is_variable, template_ok, variable, expand};

use crate::variables::Vars;
use da_tabline::split_at_byte;
use std::alloc::{AllocError, Global};

fn is_variable(letter: u8) -> bool
    ensures { result ≡ is_variable letter }
{
    matches!(letter, b'u' | b'n' | b'd' | b's' | b'r' | b'l' | b'%')
}

/// Whether each percent sign of the template begins one of the seven variables.
pub fn template_ok(template: &[u8]) -> bool
    ensures { result ≡ template_ok template.now }
{
    let mut percent = false;
    for byte in template {
        if percent {
            if !is_variable(*byte) {
                return false;
            }
            percent = false;
        } else {
            percent = *byte == b'%';
        }
    }
    !percent
}

fn local_part(user: &[u8]) -> &[u8]
    ensures { result.now ≡ before_byte 64 user.now }
{
    match split_at_byte(user, b'@') {
        Some((local, _)) => local,
        None => user,
    }
}

/// Appends what a variable stands for.
fn push_variable(text: &mut Vec<u8>, vars: &Vars, letter: u8) -> Result<(), AllocError>
    ensures { OnOk result (text.new.items ≡ text.old.items ++ variable vars.now letter) }
{
    let user = vars.user.bytes();
    match letter {
        b'u' => text.extend_from_slice(user),
        b'n' => text.extend_from_slice(local_part(user)),
        b'd' => match split_at_byte(user, b'@') {
            Some((_, domain)) => text.extend_from_slice(domain),
            None => Ok(()),
        },
        b's' => text.extend_from_slice(vars.service.bytes()),
        b'r' => text.extend_from_slice(vars.rip.bytes()),
        b'l' => text.extend_from_slice(vars.lip.bytes()),
        _ => text.extend_from_slice(&[letter]),
    }
}

/// The template with each variable replaced by what it stands for.
pub fn expand(alloc: Global, template: &[u8], vars: &Vars) -> Result<Vec<u8>, AllocError>
    requires { IsTrue (template_ok template.now) }
    ensures { IfOk result (λ text. text.items ≡ expand vars.now template.now) }
{
    let mut text = Vec::new(alloc);
    let mut percent = false;
    for byte in template {
        if percent {
            push_variable(&mut text, vars, *byte)?;
            percent = false;
        } else if *byte == b'%' {
            percent = true;
        } else {
            text.push(*byte)?;
        }
    }
    Ok(text)
}
