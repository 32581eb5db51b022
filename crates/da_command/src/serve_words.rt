// The words of `serve`.

ghost use Rattle.std.specs.Prelude.{◌≡◌, map, option_map, string_bytes};
ghost use Rattle.da_command.specs.ServeWords.{goal_of, goal_number, goal_words, serve_task};

use crate::words::path_after;
use da_settings::Goal;
use da_tabline::decimal_number;

/// The most connections of a kind that a goal may name.
const GOAL_MAX: u64 = 100_000;

fn count_of(word: &[u8]) -> Option<u32>
    ensures { result ≡ goal_number word.now }
{
    let count = decimal_number(word, GOAL_MAX)?;
    Some(count as u32)
}

fn goal_of(clients: u32, masters: u32) -> Option<Goal>
    ensures { result ≡ goal_of clients masters }
{
    if clients == 0 && masters == 0 {
        return None;
    }
    Some(Goal { clients, masters })
}

fn goal_of_words(clients: &[u8], masters: &[u8]) -> Option<Goal>
    ensures { result ≡ goal_words clients.now masters.now }
{
    let clients = count_of(clients)?;
    let masters = count_of(masters)?;
    goal_of(clients, masters)
}

/// The path and the goal of `serve PATH` or `serve PATH N M`. `None` exactly where the words are off these forms.
pub fn task_of_serve(words: &[String]) -> Option<(&[u8], Option<Goal>)>
    ensures { option_map (λ r. (r.0.now, r.1)) result ≡ serve_task (map string_bytes words.now) }
{
    match words {
        [command, path] => {
            let path = path_after(b"serve", command.as_bytes(), path.as_bytes())?;
            Some((path, None))
        }
        [command, path, clients, masters] => {
            let path = path_after(b"serve", command.as_bytes(), path.as_bytes())?;
            let goal = goal_of_words(clients.as_bytes(), masters.as_bytes())?;
            Some((path, Some(goal)))
        }
        _ => None,
    }
}
