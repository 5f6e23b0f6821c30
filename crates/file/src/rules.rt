// The rules of a file: each its head, the length of its body, its body and its cost.
ghost use Rattle.std.specs.Prelude.{length};
ghost use Rattle.file.specs.Faults.{mapped, report_of};
ghost use Rattle.file.specs.Rules.{body as body_at, as_rule, rule as rule_at};
ghost use Rattle.file.specs.Reader.{Reads};

use crate::fault::{Fault, Field};
use crate::reader::Reader;
use sheet::rule::{BODY_LIMIT, Rule};

// Takes the facts of a body, as many as there are places.
fn take_body(reader: &mut Reader, body: &mut [u16]) -> Result<(), Fault>
    ensures { Reads report_of (body_at reader.old.size (length body.old)) reader.old (mapped (λ _. body.new) result) reader.new }
{
    for fact in body.iter_mut() {
        *fact = reader.field(Field::Body, Reader::short)?;
    }
    Ok(())
}

// Takes a rule.
#[tactic(auto, unfolding(crate::specs::Rules::rule))]
pub fn take_rule(reader: &mut Reader) -> Result<Rule, Fault>
    ensures { Reads report_of (λ bs. as_rule (rule_at reader.old.size bs)) reader.old result reader.new }
{
    let head = reader.field(Field::Head, Reader::short)?;
    let arity = reader.field(Field::Arity, Reader::arity)?;
    let mut places = [0; BODY_LIMIT];
    let body = &mut places[0..arity];
    take_body(reader, body)?;
    let cost = reader.field(Field::Cost, Reader::cost)?;
    Ok(Rule::new(head, body, cost))
}
