//! The first of what a tree has beyond the stated limits.
ghost use Rattle.std.specs.Prelude.{◌≡◌, [], ◌∷◌, ◌++◌, map, option_to_list};
ghost use Rattle.std.specs.List.{flat_map};
ghost use Rattle.easl_model.specs.{block_of, clause_of, clauses, codes_in, fields_in, methods_in, written_of};
ghost use Rattle.easl_model.specs.TreeLimits as limits;
ghost use Rattle.easl_model.specs.declared.fault.Which.TheVariants as counts;
ghost use Rattle.easl_parser.specs.Tallies.{first_from, tally_of};

use crate::tally::{Tally, count};
use easl_model::{
    Arg, Class, Code, Cond, Excess, Member, Param, Path, Requires, Return, Spec, Step, Value,
    Which, Word,
};

/// The first of what the tree has beyond the limits, in text order.
pub(crate) fn first_excess(spec: &Spec) -> Option<Excess>
    ensures { result ≡ limits.first_excess spec.now }
{
    excess_of(spec, None)
}

#[tactic(auto, using(easl_model::proofs::Finding::both))]
fn excess_of(spec: &Spec, found: Option<Excess>) -> Option<Excess>
    ensures { result ≡ first_from found (limits.excess_of spec.now) }
{
    let classes = spec.classes.as_slice();
    let found = many_classes(classes, found);
    excess_of_classes(classes, found)
}

#[tactic(auto, using(crate::proofs::Counting::finds_beyond))]
fn many_classes(classes: &[Class], found: Option<Excess>) -> Option<Excess>
    ensures { result ≡ first_from found (limits.beyond 64 counts.Classes (map (λ c. c.place) classes.now)) }
{
    count_classes(Tally { left: 64, found }, classes).found
}

fn count_classes(start: Tally, classes: &[Class]) -> Tally
    ensures { result ≡ tally_of counts.Classes start (map (λ c. c.place) classes.now) }
{
    let mut tally = start;
    'each: for class in classes {
        tally = count(tally, Which::Classes, class.place);
    }
    tally
}

#[tactic(auto, using(easl_model::proofs::Finding::both))]
fn excess_of_classes(classes: &[Class], start: Option<Excess>) -> Option<Excess>
    ensures { result ≡ first_from start (flat_map limits.excess_of_class classes.now) }
{
    let mut found = start;
    'each: for class in classes {
        found = excess_of_class(class, found);
    }
    found
}

#[tactic(auto, using(easl_model::proofs::Finding::both))]
fn excess_of_class(class: &Class, found: Option<Excess>) -> Option<Excess>
    ensures { result ≡ first_from found (limits.excess_of_class class.now) }
{
    let members = class.members.as_slice();
    let found = many_fields(members, found);
    let found = many_methods(members, found);
    excess_of_codes(members, found)
}

#[tactic(auto, using(crate::proofs::Counting::finds_beyond))]
fn many_fields(members: &[Member], found: Option<Excess>) -> Option<Excess>
    ensures { result ≡ first_from found (limits.beyond 16 counts.Fields (map (λ f. f.class.place) (fields_in members.now))) }
{
    count_fields(Tally { left: 16, found }, members).found
}

#[tactic(auto, using(crate::proofs::Counting::finds_beyond))]
fn many_methods(members: &[Member], found: Option<Excess>) -> Option<Excess>
    ensures { result ≡ first_from found (limits.beyond 64 counts.Methods (map (λ code. code.place) (methods_in members.now))) }
{
    count_methods(Tally { left: 64, found }, members).found
}

#[tactic(auto, using(crate::proofs::Counting::field_first))]
fn count_fields(start: Tally, members: &[Member]) -> Tally
    ensures { result ≡ tally_of counts.Fields start (map (λ f. f.class.place) (fields_in members.now)) }
{
    let mut tally = start;
    'each: for member in members {
        tally = count_field(tally, member);
    }
    tally
}

fn count_field(tally: Tally, member: &Member) -> Tally
    ensures { result ≡ tally_of counts.Fields tally (map (λ f. f.class.place) (fields_in (member.now ∷ []))) }
{
    match member {
        Member::Field(field) => count(tally, Which::Fields, field.class.place),
        Member::Constructor(_) | Member::Method(_) => tally,
    }
}

#[tactic(auto, using(crate::proofs::Counting::method_first))]
fn count_methods(start: Tally, members: &[Member]) -> Tally
    ensures { result ≡ tally_of counts.Methods start (map (λ code. code.place) (methods_in members.now)) }
{
    let mut tally = start;
    'each: for member in members {
        tally = count_method(tally, member);
    }
    tally
}

fn count_method(tally: Tally, member: &Member) -> Tally
    ensures { result ≡ tally_of counts.Methods tally (map (λ code. code.place) (methods_in (member.now ∷ []))) }
{
    match member {
        Member::Method(code) => count(tally, Which::Methods, code.place),
        Member::Field(_) | Member::Constructor(_) => tally,
    }
}

#[tactic(auto, using(crate::proofs::Counting::code_first))]
fn excess_of_codes(members: &[Member], start: Option<Excess>) -> Option<Excess>
    ensures { result ≡ first_from start (flat_map limits.excess_of_code (codes_in members.now)) }
{
    let mut found = start;
    'each: for member in members {
        found = excess_of_member(member, found);
    }
    found
}

#[tactic(auto, using(crate::proofs::Counting::only))]
fn excess_of_member(member: &Member, found: Option<Excess>) -> Option<Excess>
    ensures { result ≡ first_from found (flat_map limits.excess_of_code (codes_in (member.now ∷ []))) }
{
    match member {
        Member::Constructor(code) => excess_of_code(code, found),
        Member::Method(code) => excess_of_code(code, found),
        Member::Field(_) => found,
    }
}

#[tactic(auto, using(crate::proofs::Counting::seven_in_turn))]
fn excess_of_code(code: &Code, found: Option<Excess>) -> Option<Excess>
    ensures { result ≡ first_from found (limits.excess_of_code code.now) }
{
    let body = code.body.as_slice();
    let clauses = code.clauses.as_slice();
    let found = excess_of_params(code.params.as_slice(), found);
    let found = many_clauses(clauses, found);
    let found = excess_of_clauses(clauses, found);
    let found = many_statements(body, &code.value, found);
    let found = many_conditionals(body, found);
    let found = excess_in(body, found);
    excess_of_return(&code.value, found)
}

#[tactic(auto, using(crate::proofs::Counting::finds_beyond))]
fn excess_of_params(params: &[Param], found: Option<Excess>) -> Option<Excess>
    ensures { result ≡ first_from found (limits.beyond 4 counts.Parameters (map (λ p. p.place) params.now)) }
{
    count_params(Tally { left: 4, found }, params).found
}

fn count_params(start: Tally, params: &[Param]) -> Tally
    ensures { result ≡ tally_of counts.Parameters start (map (λ p. p.place) params.now) }
{
    let mut tally = start;
    'each: for param in params {
        tally = count(tally, Which::Parameters, param.place);
    }
    tally
}

#[tactic(auto, using(crate::proofs::Counting::finds_beyond))]
fn many_clauses(clauses: &[Requires], found: Option<Excess>) -> Option<Excess>
    ensures { result ≡ first_from found (limits.beyond 16 counts.Clauses (map (λ c. c.place) clauses.now)) }
{
    count_clauses(Tally { left: 16, found }, clauses).found
}

fn count_clauses(start: Tally, clauses: &[Requires]) -> Tally
    ensures { result ≡ tally_of counts.Clauses start (map (λ c. c.place) clauses.now) }
{
    let mut tally = start;
    'each: for clause in clauses {
        tally = count(tally, Which::Clauses, clause.place);
    }
    tally
}

#[tactic(auto, using(easl_model::proofs::Finding::both))]
fn excess_of_clauses(clauses: &[Requires], start: Option<Excess>) -> Option<Excess>
    ensures { result ≡ first_from start (flat_map limits.excess_of_clause clauses.now) }
{
    let mut found = start;
    'each: for clause in clauses {
        found = excess_of_clause(clause, found);
    }
    found
}

#[tactic(auto, using(crate::proofs::Counting::beyond_both))]
fn many_statements(body: &[Step], value: &Option<Return>, found: Option<Excess>) -> Option<Excess>
    ensures { result ≡ first_from found (limits.beyond 64 counts.Statements
        (limits.statements_in (block_of body.now) ++ map (λ r. r.place) (option_to_list value.now))) }
{
    let tally = statements_in(body, Tally { left: 64, found });
    count_return(tally, value).found
}

/// A `return` is a statement too.
fn count_return(tally: Tally, value: &Option<Return>) -> Tally
    ensures { result ≡ tally_of counts.Statements tally (map (λ r. r.place) (option_to_list value.now)) }
{
    match value {
        Some(last) => count(tally, Which::Statements, last.place),
        None => tally,
    }
}

#[tactic(auto, using(crate::proofs::Counting::finds_beyond))]
fn many_conditionals(body: &[Step], found: Option<Excess>) -> Option<Excess>
    ensures { result ≡ first_from found (limits.beyond 8 counts.Conditionals (limits.conditionals_in (block_of body.now))) }
{
    conditionals_in(body, Tally { left: 8, found }).found
}

#[tactic(auto, using(crate::proofs::Counting::only))]
fn excess_of_return(value: &Option<Return>, found: Option<Excess>) -> Option<Excess>
    ensures { result ≡ first_from found (flat_map (λ r. limits.excess_of_value r.value) (option_to_list value.now)) }
{
    match value {
        Some(last) => excess_of_value(&last.value, found),
        None => found,
    }
}

/// Counts statements, those of branches among them.
#[cycle(statements)]
#[tactic(auto, using(crate::proofs::Counting::in_turn))]
fn statements_in(steps: &[Step], start: Tally) -> Tally
    ensures { result ≡ tally_of counts.Statements start (limits.statements_in (block_of steps.now)) }
{
    let mut tally = start;
    'each: for step in steps {
        tally = statements_at(step, tally);
    }
    tally
}

#[cycle(statements)]
#[tactic(auto, using(crate::proofs::Counting::in_turn))]
fn statements_at(step: &Step, tally: Tally) -> Tally
    ensures { result ≡ tally_of counts.Statements tally (limits.statements_at (written_of step.now)) }
{
    match step {
        Step::Declare(class, _, _) => count(tally, Which::Statements, class.place),
        Step::Assign(path, _) => count(tally, Which::Statements, path.place),
        Step::If(place, _, first, second, _) => {
            let tally = count(tally, Which::Statements, *place);
            let tally = statements_in(first.as_slice(), tally);
            statements_in(second.as_slice(), tally)
        }
    }
}

/// Counts conditionals, those of branches among them.
#[cycle(conditionals)]
#[tactic(auto, using(crate::proofs::Counting::in_turn))]
fn conditionals_in(steps: &[Step], start: Tally) -> Tally
    ensures { result ≡ tally_of counts.Conditionals start (limits.conditionals_in (block_of steps.now)) }
{
    let mut tally = start;
    'each: for step in steps {
        tally = conditionals_at(step, tally);
    }
    tally
}

#[cycle(conditionals)]
#[tactic(auto, using(crate::proofs::Counting::in_turn))]
fn conditionals_at(step: &Step, tally: Tally) -> Tally
    ensures { result ≡ tally_of counts.Conditionals tally (limits.conditionals_at (written_of step.now)) }
{
    match step {
        Step::Declare(_, _, _) | Step::Assign(_, _) => tally,
        Step::If(place, _, first, second, _) => {
            let tally = count(tally, Which::Conditionals, *place);
            let tally = conditionals_in(first.as_slice(), tally);
            conditionals_in(second.as_slice(), tally)
        }
    }
}

/// What the paths of statements have beyond the limit.
#[cycle(paths)]
#[tactic(auto, using(easl_model::proofs::Finding::both))]
fn excess_in(steps: &[Step], start: Option<Excess>) -> Option<Excess>
    ensures { result ≡ first_from start (limits.excess_in (block_of steps.now)) }
{
    let mut found = start;
    'each: for step in steps {
        found = excess_at(step, found);
    }
    found
}

#[cycle(paths)]
#[tactic(auto, using(easl_model::proofs::Finding::both))]
fn excess_at(step: &Step, found: Option<Excess>) -> Option<Excess>
    ensures { result ≡ first_from found (limits.excess_at (written_of step.now)) }
{
    match step {
        Step::Declare(_, _, value) => excess_of_value(value, found),
        Step::Assign(path, value) => {
            let found = excess_of_path(path, found);
            excess_of_value(value, found)
        }
        Step::If(_, test, first, second, _) => {
            let found = excess_of_condition(test, found);
            let found = excess_in(first.as_slice(), found);
            excess_in(second.as_slice(), found)
        }
    }
}

#[tactic(auto, using(easl_model::proofs::Finding::both))]
fn excess_of_clause(clause: &Requires, found: Option<Excess>) -> Option<Excess>
    ensures { result ≡ first_from found (limits.excess_of_clause clause.now) }
{
    let found = many_comparisons(&clause.condition, found);
    excess_of_condition(&clause.condition, found)
}

#[tactic(auto, using(crate::proofs::Counting::finds_beyond))]
fn many_comparisons(condition: &Cond, found: Option<Excess>) -> Option<Excess>
    ensures { result ≡ first_from found (limits.beyond 16 counts.Comparisons (limits.comparisons_of (clause_of condition.now))) }
{
    comparisons_of(condition, Tally { left: 16, found }).found
}

/// Counts comparisons by their left sides.
#[cycle(comparisons)]
fn comparisons_of(condition: &Cond, tally: Tally) -> Tally
    ensures { result ≡ tally_of counts.Comparisons tally (limits.comparisons_of (clause_of condition.now)) }
{
    match condition {
        Cond::Same(left, _) => count(tally, Which::Comparisons, left.place),
        Cond::Differ(left, _) => count(tally, Which::Comparisons, left.place),
        Cond::All(parts) => comparisons_in(parts.as_slice(), tally),
        Cond::Any(parts) => comparisons_in(parts.as_slice(), tally),
    }
}

#[cycle(comparisons)]
#[tactic(auto, using(crate::proofs::Counting::in_turn))]
fn comparisons_in(parts: &[Cond], start: Tally) -> Tally
    ensures { result ≡ tally_of counts.Comparisons start (limits.comparisons_in (clauses (map clause_of parts.now))) }
{
    let mut tally = start;
    'each: for part in parts {
        tally = comparisons_of(part, tally);
    }
    tally
}

/// What the paths of a condition have beyond the limit.
#[cycle(conditions)]
#[tactic(auto, using(easl_model::proofs::Finding::both, crate::proofs::Counting::only))]
fn excess_of_condition(condition: &Cond, found: Option<Excess>) -> Option<Excess>
    ensures { result ≡ first_from found (limits.excess_of_condition (clause_of condition.now)) }
{
    match condition {
        Cond::Same(left, right) => excess_of_path(right, excess_of_path(left, found)),
        Cond::Differ(left, right) => excess_of_path(right, excess_of_path(left, found)),
        Cond::All(parts) => excess_of_conditions(parts.as_slice(), found),
        Cond::Any(parts) => excess_of_conditions(parts.as_slice(), found),
    }
}

#[cycle(conditions)]
#[tactic(auto, using(crate::proofs::Counting::each_in_turn))]
fn excess_of_conditions(parts: &[Cond], start: Option<Excess>) -> Option<Excess>
    ensures { result ≡ first_from start (flat_map limits.excess_of_path (limits.paths_in (clauses (map clause_of parts.now)))) }
{
    let mut found = start;
    'each: for part in parts {
        found = excess_of_condition(part, found);
    }
    found
}

fn excess_of_value(value: &Value, found: Option<Excess>) -> Option<Excess>
    ensures { result ≡ first_from found (limits.excess_of_value value.now) }
{
    match value {
        Value::Path(path) => excess_of_path(path, found),
        Value::New(new) => excess_of_arguments(new.args.as_slice(), found),
    }
}

#[tactic(auto, using(easl_model::proofs::Finding::both))]
fn excess_of_arguments(arguments: &[Arg], start: Option<Excess>) -> Option<Excess>
    ensures { result ≡ first_from start (flat_map limits.excess_of_argument arguments.now) }
{
    let mut found = start;
    'each: for argument in arguments {
        found = excess_of_argument(argument, found);
    }
    found
}

fn excess_of_argument(argument: &Arg, found: Option<Excess>) -> Option<Excess>
    ensures { result ≡ first_from found (limits.excess_of_argument argument.now) }
{
    match argument {
        Arg::Literal(_) => found,
        Arg::Path(path) => excess_of_path(path, found),
    }
}

/// The names of a path beyond the sixth.
#[tactic(auto, using(crate::proofs::Counting::finds_beyond))]
fn excess_of_path(path: &Path, found: Option<Excess>) -> Option<Excess>
    ensures { result ≡ first_from found (limits.excess_of_path path.now) }
{
    count_names(Tally { left: 6, found }, path.fields.as_slice()).found
}

fn count_names(start: Tally, names: &[Word]) -> Tally
    ensures { result ≡ tally_of counts.Path start (map (λ w. w.place) names.now) }
{
    let mut tally = start;
    'each: for name in names {
        tally = count(tally, Which::Path, name.place);
    }
    tally
}
