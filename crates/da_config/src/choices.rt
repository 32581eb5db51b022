// The words that name a choice.
ghost use Rattle.std.specs.Prelude.{◌≡◌, map};
ghost use Rattle.da_config.specs.Choices.{driver_called, mechanism_called, named, rule_called, skip_called, user_driver_called, user_skip_called};

use da_fields::Rule;
use da_msgs::Mech;
use da_passdb::{Driver, Skip};
use da_userdb::{UserDriver, UserSkip};

const MECHANISMS: [Mech; 4] = [Mech::Plain, Mech::Login, Mech::CramMd5, Mech::ScramSha256];

/// The mechanism of this name, in capitals.
pub fn mechanism_called(text: &[u8]) -> Option<Mech>
    ensures { result ≡ mechanism_called text.now }
{
    MECHANISMS.iter().copied().find(|mech| text == mech.name())
}

// The choice of this name, where each has one.
fn named<C: Copy>(choices: &[(C, &str)], text: &[u8]) -> Option<C>
    ensures { result ≡ named (map (λ choice. (choice.0, choice.1.now)) choices.now) text.now }
{
    for choice in choices {
        if text == choice.1.as_bytes() {
            return Some(choice.0);
        }
    }
    None
}

const RULES: [(Rule, &str); 6] = [
    (Rule::ReturnOk, "return-ok"),
    (Rule::ReturnFail, "return-fail"),
    (Rule::Return, "return"),
    (Rule::ContinueOk, "continue-ok"),
    (Rule::ContinueFail, "continue-fail"),
    (Rule::Continue, "continue"),
];

/// The rule of this name.
pub fn rule_called(text: &[u8]) -> Option<Rule>
    ensures { result ≡ rule_called text.now }
{
    named(&RULES, text)
}

const DRIVERS: [(Driver, &str); 3] = [
    (Driver::PasswdFile, "passwd-file"),
    (Driver::Worker, "worker"),
    (Driver::Checkpassword, "checkpassword"),
];

/// The driver of password databases of this name.
pub fn driver_called(text: &[u8]) -> Option<Driver>
    ensures { result ≡ driver_called text.now }
{
    named(&DRIVERS, text)
}

const SKIPS: [(Skip, &str); 3] = [
    (Skip::Never, "never"),
    (Skip::Authenticated, "authenticated"),
    (Skip::Unauthenticated, "unauthenticated"),
];

/// When a password database of this word is passed over.
pub fn skip_called(text: &[u8]) -> Option<Skip>
    ensures { result ≡ skip_called text.now }
{
    named(&SKIPS, text)
}

const USER_DRIVERS: [(UserDriver, &str); 3] = [
    (UserDriver::PasswdFile, "passwd-file"),
    (UserDriver::Worker, "worker"),
    (UserDriver::Prefetch, "prefetch"),
];

/// The driver of user databases of this name.
pub fn user_driver_called(text: &[u8]) -> Option<UserDriver>
    ensures { result ≡ user_driver_called text.now }
{
    named(&USER_DRIVERS, text)
}

const USER_SKIPS: [(UserSkip, &str); 3] = [
    (UserSkip::Never, "never"),
    (UserSkip::Found, "found"),
    (UserSkip::NotFound, "notfound"),
];

/// When a user database of this word is passed over.
pub fn user_skip_called(text: &[u8]) -> Option<UserSkip>
    ensures { result ≡ user_skip_called text.now }
{
    named(&USER_SKIPS, text)
}
