// Rules 19 to 22: the scripts of the harts, and that of the attacker.
ghost use Rattle.std.specs.Prelude.{◌≡◌, ◌+◌, ◌<◌, ◌≤◌, ◌++◌, map, length, sum_by, option_map, IfOk, IfSome, OnOk};
ghost use Rattle.std.specs.List.{list_all, filter_map, flat_map, position_from};
ghost use Rattle.std.specs.Option.{option_to_list};
ghost use Rattle.toml.specs.Data.{as_str};
ghost use Rattle.toml.specs.View.{view, table_view};
ghost use Rattle.world_lines.specs.Forms.{line_of, attack_line_of};
ghost use Rattle.world_setup.specs.Answers.{Answers};
ghost use Rattle.world_setup.specs.Keys.{harts_in};
ghost use Rattle.world_setup.specs.Scripts.{is_script, has_script, is_hart_array, is_attack_array, texts_in, hart_texts, script_texts, attack_texts, has_no_form, has_no_attack_form, scripts_hold, forms_hold, hart_lines, attack_script, scripts_of, IsRead};

use crate::fault::{SetupFault, after, none_at, unless};
use crate::toml_data::{are_texts, items_at, items_of, member, member_of};
use pl_base::{Listed, Memory};
use pl_history::{AttackLine, Line};
use std::alloc::Global;
use toml::{Table, Value};
use world_lines::{attack_line_of, line_of};

// The most lines of all scripts.
const MOST_LINES: usize = 65_536;

/// The scripts of a setup.
#[derive(Drop)]
pub(crate) struct Scripts {
    pub(crate) lines: Listed<Listed<Line>>,
    pub(crate) attacker: Listed<AttackLine>,
}

/// How many lines the harts have.
pub(crate) fn count_lines(scripts: &[Listed<Line>]) -> usize
    requires { sum_by length scripts.now ≤ 65536 }
    ensures { result ≡ sum_by length scripts.now }
{
    let mut count = 0;
    for lines in scripts {
        count += lines.len();
    }
    count
}

// ---- arrays of strings

#[tactic(auto, using(crate::proofs::ViewRules::views))]
fn is_script(value: Option<&Value>) -> bool
    ensures { result ≡ is_script (option_map (λ v. view v.now) value.entry) }
{
    match value {
        Some(Value::Array(items)) => are_texts(items.as_slice()),
        _ => false,
    }
}

fn has_script(hart: &Value) -> bool
    ensures { result ≡ has_script (view hart.now) }
{
    is_script(member_of(hart, "lines"))
}

fn have_scripts(harts: &[Value]) -> bool
    ensures { result ≡ list_all (λ v. has_script (view v)) harts.now }
{
    harts.iter().all(|hart| has_script(hart))
}

// An array of so many tables, each with a script.
#[tactic(auto, using(crate::proofs::ViewRules::views))]
fn is_hart_array(harts: u8, value: Option<&Value>) -> bool
    ensures { result ≡ is_hart_array harts (option_map (λ v. view v.now) value.entry) }
{
    match value {
        Some(Value::Array(items)) => {
            items.len() == usize::from(harts) && have_scripts(items.as_slice())
        }
        _ => false,
    }
}

// Absent, or an array of strings.
fn is_attack_array(value: Option<&Value>) -> bool
    ensures { result ≡ is_attack_array (option_map (λ v. view v.now) value.entry) }
{
    match value {
        None => true,
        Some(value) => is_script(Some(value)),
    }
}

// ---- their texts

// Adds the text of an item, where it is one.
fn push_text<'a>(all: &mut Vec<&'a str>, item: &'a Value) -> Result<(), Memory>
    ensures { OnOk result (map (λ t. t.now) all.new.items ≡ map (λ t. t.now) all.old.items ++ option_to_list (as_str (view item.entry.now))) }
{
    match item {
        Value::String(text) => {
            all.push(text.as_str())?;
            Ok(())
        }
        _ => Ok(()),
    }
}

// Adds the texts of some items.
fn push_items<'a>(all: &mut Vec<&'a str>, items: &'a [Value]) -> Result<(), Memory>
    ensures { OnOk result (map (λ t. t.now) all.new.items ≡ map (λ t. t.now) all.old.items ++ filter_map (λ v. as_str (view v)) items.entry.now) }
{
    all.reserve(items.len())?;
    for item in items {
        push_text(all, item)?;
    }
    Ok(())
}

// Adds the texts of an array.
fn push_texts<'a>(all: &mut Vec<&'a str>, value: Option<&'a Value>) -> Result<(), Memory>
    ensures { OnOk result (map (λ t. t.now) all.new.items ≡ map (λ t. t.now) all.old.items ++ texts_in (option_map (λ v. view v.now) value.entry)) }
{
    push_items(all, items_of(value))
}

// Adds the texts of a hart.
fn push_hart<'a>(all: &mut Vec<&'a str>, hart: &'a Value) -> Result<(), Memory>
    ensures { OnOk result (map (λ t. t.now) all.new.items ≡ map (λ t. t.now) all.old.items ++ hart_texts (view hart.entry.now)) }
{
    push_texts(all, member_of(hart, "lines"))
}

fn gather_texts<'a>(alloc: Global, harts: &'a [Value]) -> Result<Vec<&'a str>, Memory>
    ensures { IfOk result (λ texts. map (λ t. t.now) texts.items ≡ flat_map (λ v. hart_texts (view v)) harts.now) }
{
    let mut all = Vec::new(alloc);
    for hart in harts {
        push_hart(&mut all, hart)?;
    }
    Ok(all)
}

// The texts of hart 0, then of hart 1, and so on.
fn script_texts(alloc: Global, table: &Table) -> Result<Vec<&str>, Memory>
    ensures { IfOk result (λ texts. map (λ t. t.now) texts.items ≡ script_texts (table_view table.now)) }
{
    gather_texts(alloc, items_at(table, "hart"))
}

fn attack_texts(alloc: Global, table: &Table) -> Result<Vec<&str>, Memory>
    ensures { IfOk result (λ texts. map (λ t. t.now) texts.items ≡ attack_texts (table_view table.now)) }
{
    let mut all = Vec::new(alloc);
    push_texts(&mut all, member(table, "attacker"))?;
    Ok(all)
}

fn hart_texts(alloc: Global, hart: &Value) -> Result<Vec<&str>, Memory>
    ensures { IfOk result (λ texts. map (λ t. t.now) texts.items ≡ hart_texts (view hart.now)) }
{
    let mut all = Vec::new(alloc);
    push_hart(&mut all, hart)?;
    Ok(all)
}

// ---- their lines

fn without_form(alloc: Global, texts: &[&str]) -> Result<Option<usize>, Memory>
    ensures first { IfOk result (λ found. found ≡ position_from (λ t. has_no_form t.now) 0 texts.now) }
    ensures within { IfOk result (λ found. IfSome found (λ at. at < length texts.now)) }
{
    for (at, text) in texts.iter().enumerate() {
        if line_of(alloc, text.as_bytes())?.is_none() {
            return Ok(Some(at));
        }
    }
    Ok(None)
}

// The position of the first text that is no line. So many of them are lines: where all are, none is searched.
fn first_without_form(alloc: Global, texts: &[&str], lines: usize) -> Result<Option<usize>, Memory>
    requires { lines ≡ length (filter_map line_of (map (λ t. t.now) texts.now)) }
    ensures first { IfOk result (λ found. found ≡ position_from has_no_form 0 (map (λ t. t.now) texts.now)) }
    ensures within { IfOk result (λ found. IfSome found (λ at. at < length texts.now)) }
{
    if lines == texts.len() {
        return Ok(None);
    }
    without_form(alloc, texts)
}

fn without_attack_form(alloc: Global, texts: &[&str]) -> Result<Option<usize>, Memory>
    ensures first { IfOk result (λ found. found ≡ position_from (λ t. has_no_attack_form t.now) 0 texts.now) }
    ensures within { IfOk result (λ found. IfSome found (λ at. at < length texts.now)) }
{
    for (at, text) in texts.iter().enumerate() {
        if attack_line_of(alloc, text.as_bytes())?.is_none() {
            return Ok(Some(at));
        }
    }
    Ok(None)
}

// The position of the first text that is no line of the attacker. So many of them are.
fn first_without_attack_form(
    alloc: Global,
    texts: &[&str],
    lines: usize,
) -> Result<Option<usize>, Memory>
    requires { lines ≡ length (filter_map attack_line_of (map (λ t. t.now) texts.now)) }
    ensures first { IfOk result (λ found. found ≡ position_from has_no_attack_form 0 (map (λ t. t.now) texts.now)) }
    ensures within { IfOk result (λ found. IfSome found (λ at. at < length texts.now)) }
{
    if lines == texts.len() {
        return Ok(None);
    }
    without_attack_form(alloc, texts)
}

// Rule 22, of texts of which so many are lines.
#[tactic(auto, using(crate::proofs::Chains::fault_on), unfolding(crate::specs::Scripts::forms_hold))]
fn forms_hold(
    alloc: Global,
    scripts: &[&str],
    attacks: &[&str],
    lines: usize,
    attack_lines: usize,
) -> Result<(), SetupFault>
    requires few { length scripts.now + length attacks.now ≤ 65536 }
    requires lines { lines ≡ length (filter_map line_of (map (λ t. t.now) scripts.now)) }
    requires attack_lines { attack_lines ≡ length (filter_map attack_line_of (map (λ t. t.now) attacks.now)) }
    ensures { Answers (forms_hold (map (λ t. t.now) scripts.now) (map (λ t. t.now) attacks.now)) result }
{
    none_at(first_without_form(alloc, scripts, lines)?, 22)?;
    none_at(
        after(
            scripts.len(),
            first_without_attack_form(alloc, attacks, attack_lines)?,
        ),
        22,
    )
}

// Rules 19 and 20.
#[tactic(auto, using(crate::proofs::Chains::fault_on), unfolding(crate::specs::Scripts::scripts_hold))]
fn scripts_hold(harts: u8, table: &Table) -> Result<(), SetupFault>
    ensures { Answers (scripts_hold harts (table_view table.now)) result }
{
    unless(is_hart_array(harts, member(table, "hart")), 19)?;
    unless(is_attack_array(member(table, "attacker")), 20)
}

// Adds the line of a text, where it is one.
fn push_line(alloc: Global, lines: &mut Vec<Line>, text: &str) -> Result<(), Memory>
    ensures { OnOk result (lines.new.items ≡ lines.old.items ++ option_to_list (line_of text.now)) }
{
    if let Some(line) = line_of(alloc, text.as_bytes())? {
        lines.push(line)?;
    }
    Ok(())
}

fn gather_lines(alloc: Global, texts: &[&str]) -> Result<Listed<Line>, Memory>
    ensures { IfOk result (λ lines. lines ≡ filter_map (λ t. line_of t.now) texts.now) }
{
    let mut lines = Vec::with_capacity(alloc, texts.len())?;
    for text in texts {
        push_line(alloc, &mut lines, text)?;
    }
    Ok(Listed::from_vec(lines))
}

// The script of a hart.
fn hart_lines(alloc: Global, hart: &Value) -> Result<Listed<Line>, Memory>
    ensures { IfOk result (λ lines. lines ≡ hart_lines (view hart.now)) }
{
    let texts = hart_texts(alloc, hart)?;
    let lines = gather_lines(alloc, texts.as_slice())?;
    Ok(lines)
}

fn gather_scripts(alloc: Global, harts: &[Value]) -> Result<Listed<Listed<Line>>, Memory>
    ensures { IfOk result (λ scripts. scripts ≡ map (λ v. hart_lines (view v)) harts.now) }
{
    let mut all = Vec::new(alloc);
    for hart in harts {
        all.push(hart_lines(alloc, hart)?)?;
    }
    Ok(Listed::from_vec(all))
}

// The scripts of all harts.
fn all_scripts(alloc: Global, table: &Table) -> Result<Listed<Listed<Line>>, Memory>
    ensures { IfOk result (λ scripts. scripts ≡ map hart_lines (harts_in (table_view table.now))) }
{
    let scripts = gather_scripts(alloc, items_at(table, "hart"))?;
    Ok(scripts)
}

// Adds the attacker's line of a text, where it is one.
fn push_attack_line(alloc: Global, lines: &mut Vec<AttackLine>, text: &str) -> Result<(), Memory>
    ensures { OnOk result (lines.new.items ≡ lines.old.items ++ option_to_list (attack_line_of text.now)) }
{
    if let Some(line) = attack_line_of(alloc, text.as_bytes())? {
        lines.push(line)?;
    }
    Ok(())
}

fn gather_attack_lines(alloc: Global, texts: &[&str]) -> Result<Listed<AttackLine>, Memory>
    ensures { IfOk result (λ lines. lines ≡ filter_map (λ t. attack_line_of t.now) texts.now) }
{
    let mut lines = Vec::with_capacity(alloc, texts.len())?;
    for text in texts {
        push_attack_line(alloc, &mut lines, text)?;
    }
    Ok(Listed::from_vec(lines))
}

// The script of the attacker.
fn attack_script(alloc: Global, table: &Table) -> Result<Listed<AttackLine>, Memory>
    ensures { IfOk result (λ lines. lines ≡ attack_script (table_view table.now)) }
{
    let texts = attack_texts(alloc, table)?;
    let lines = gather_attack_lines(alloc, texts.as_slice())?;
    Ok(lines)
}

/// The scripts of a setup.
#[tactic(auto, using(crate::proofs::Chains::fault_on), unfolding(crate::specs::Scripts::scripts_of))]
pub(crate) fn scripts_of(alloc: Global, harts: u8, table: &Table) -> Result<Scripts, SetupFault>
    ensures scripts { Answers (scripts_of harts (table_view table.now)) result }
    ensures all { IfOk result (λ scripts. IsRead (table_view table.now) scripts) }
{
    scripts_hold(harts, table)?;
    let scripts = script_texts(alloc, table)?;
    let attacks = attack_texts(alloc, table)?;
    unless(scripts.len() + attacks.len() <= MOST_LINES, 21)?;
    let lines = all_scripts(alloc, table)?;
    let attacker = attack_script(alloc, table)?;
    forms_hold(
        alloc,
        scripts.as_slice(),
        attacks.as_slice(),
        count_lines(lines.as_slice()),
        attacker.len(),
    )?;
    Ok(Scripts { lines, attacker })
}
