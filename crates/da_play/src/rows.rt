// How many rows the tables have.

ghost use Rattle.std.specs.Prelude.{◌≤◌, List, length};
ghost use Rattle.da_play.specs.History.{tables_of};
ghost use Rattle.da_play.specs.declared.input.Entry.{Entry};
ghost use Rattle.da_settings.specs.declared.settings.Settings.{Settings};

/// There are at most as many connections, requests and queries as entries.
pub fn rows_are_few()
    ensures connections { (settings : Settings) (h : List Entry) → length (tables_of settings h).connections ≤ length h }
    ensures requests { (settings : Settings) (h : List Entry) → length (tables_of settings h).requests ≤ length h }
    ensures queries { (settings : Settings) (h : List Entry) → length (tables_of settings h).queries ≤ length h }
{}
