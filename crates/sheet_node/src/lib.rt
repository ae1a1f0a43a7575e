// Node records of a sheet: a check, and readers of a node that was read whole, which say where its parts stand and take each
// statement's content.
#![tactic(auto)]

ghost use Rattle.std.specs.Prelude.{◌≡◌, Ok, IfOk};
ghost use Rattle.sheet_field.specs.Reads.{Reads};
ghost use Rattle.sheet_node.specs.Node.{map_at, statement_at, statements_from, node_at};
ghost use Rattle.sheet_node.specs.Promises.{types_end, node_types, addresses_end};

use refusal::{Fault, Refusal};
use sheet_expression::Types;
use sheet_field::Reader;

pub mod node;

// A statement's map byte: 0 or 3.
fn take_map(r: &mut Reader) -> Result<u64, Refusal>
    ensures reads { Reads r.old r.new result (map_at r.old.bytes.now (Ok r.old.at)).next }
    ensures value { IfOk result (λ x. x ≡ (map_at r.old.bytes.now (Ok r.old.at)).value) }
{
    r.take_checked::<1, _>(Fault::Code, |x| (x == 0) | (x == 3))
}

// A statement, in a node of variables of these types.
fn check_statement(r: &mut Reader, types: Types) -> Result<(), Refusal>
    ensures { Reads r.old r.new result (statement_at types.entry.bytes.now r.old.bytes.now (Ok r.old.at)).next }
{
    let at = r.at;
    let map = take_map(r)?;
    if map != 3 {
        return Ok(());
    }
    let v = r.code(types.bytes.len() as u64)?;
    let t = sheet_expression::check_expression(r, types)?;
    if expr::same_type(t, u64::from(types.bytes[v as usize])) {
        Ok(())
    } else {
        Err(Fault::Typing.at(at))
    }
}

fn check_statements(r: &mut Reader, types: Types, n: u64) -> Result<(), Refusal>
    ensures { Reads r.old r.new result (statements_from types.entry.bytes.now r.old.bytes.now (Ok r.old.at) n).next }
{
    for _ in 0..n {
        check_statement(r, types)?;
    }
    Ok(())
}

// The types of a node's variables: a count, then a byte each.
fn check_types<'a>(r: &mut Reader<'a>) -> Result<Types<'a>, Refusal>
    ensures reads { Reads r.old r.new result (types_end r.old.bytes.now (Ok r.old.at)) }
    ensures types { IfOk result (λ t. t.bytes.now ≡ node_types r.old.bytes.now (Ok r.old.at)) }
{
    let n = r.count(0, 32)?;
    let from = r.at;
    for _ in 0..n {
        r.code(expr::TYPES)?;
    }
    let s: &'a [u8] = r.bytes;
    let bytes = &s[from..from + n as usize];
    Ok(Types { bytes })
}

// A count of addresses, then 8 bytes each.
fn check_addresses(r: &mut Reader) -> Result<(), Refusal>
    ensures { Reads r.old r.new result (addresses_end r.old.bytes.now (Ok r.old.at)) }
{
    let n = r.count(0, 16)?;
    r.take_words(n)
}

// A node record.
pub fn check_node(r: &mut Reader) -> Result<(), Refusal>
    ensures { Reads r.old r.new result (node_at r.old.bytes.now (Ok r.old.at)).next }
{
    let types = check_types(r)?;
    let statements = r.count(0, 64)?;
    check_statements(r, types, statements)?;
    sheet_expression::check_expression(r, types)?;
    check_addresses(r)
}
