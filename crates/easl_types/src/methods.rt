//! The checked form of methods and classes.
ghost use Rattle.std.specs.Prelude.{◌≡◌, ◌++◌, ◌||◌, IfOk, OnOk, Some, if◌then◌else◌, map};
ghost use Rattle.std.specs.Option.{option_copied, option_map};
ghost use Rattle.easl_model.specs.{bodies_in, bodies_of, class_of as class_told, clause_of, clauses, constructor_body, fields_in, method_body, methods_in};
ghost use Rattle.easl_model.specs.CheckedForm as told;
ghost use Rattle.easl_types.specs.Forms as forms;

use crate::form::{acts_of, class_number, number, source_of, test_of};
use crate::no_memory::NoMemory;
use easl_bodies::{class_of, constructor_among, given_by, start_of};
use easl_model::{
    Act, Class, ClassForm, Code, Context, Member, Method, Name, Param, Place, Requires, Sort,
    Source, Spec, Test, Value,
};
use sqlite_items::Items;
use std::alloc::Global;

/// The parts of a checked form, and the places of the methods' names by number.
#[derive(Drop)]
pub(crate) struct Parts {
    pub(crate) classes: Vec<ClassForm>,
    pub(crate) methods: Vec<Method>,
    pub(crate) places: Vec<Place>,
}

/// The parts of the specification's checked form.
pub(crate) fn parts_of(alloc: Global, spec: &Spec) -> Result<Parts, NoMemory>
    ensures classes { IfOk result (λ p. p.classes.items ≡ told.classes_from spec.now 0 spec.now.classes) }
    ensures methods { IfOk result (λ p. p.methods.items ≡ map (told.method_of spec.now) (bodies_of spec.now)) }
    ensures places { IfOk result (λ p. p.places.items ≡ map (λ b. b.code.name.place) (bodies_of spec.now)) }
{
    let mut classes = Vec::new(alloc);
    let mut methods = Vec::new(alloc);
    let mut places = Vec::new(alloc);
    let given = spec.classes.as_slice();
    'each: for at in 0..given.len() {
        let class = &given[at];
        let constructor = number(methods.len())?;
        classes.push(class_form(alloc, spec, class, constructor)?)?;
        add_methods(alloc, spec, at, class, &mut methods)?;
        add_places(class, &mut places)?;
    }
    Ok(Parts {
        classes,
        methods,
        places,
    })
}

/// The class whose constructor has this number.
fn class_form(
    alloc: Global,
    spec: &Spec,
    class: &Class,
    constructor: u32,
) -> Result<ClassForm, NoMemory>
    ensures { IfOk result (λ c. c ≡ forms.class_form spec.now constructor class.now) }
{
    let members = class.members.as_slice();
    Ok(ClassForm {
        name: copy_of(alloc, &class.name.name)?,
        field_names: field_names(alloc, members)?,
        field_classes: field_classes(alloc, spec, members)?,
        constructor,
    })
}

fn copy_of(alloc: Global, name: &Name) -> Result<Name, NoMemory>
    ensures { IfOk result (λ n. n ≡ name.now) }
{
    Ok(Name(String::from_str(alloc, name.0.as_str())?))
}

#[tactic(auto, using(std::proofs::lemmas::List::drop_more))]
fn field_names(alloc: Global, members: &[Member]) -> Result<Items<Name>, NoMemory>
    ensures { IfOk result (λ ns. ns ≡ map (λ f. f.name.name) (fields_in members.now)) }
{
    let mut names = Items::new(alloc);
    'each: for member in members {
        if let Member::Field(field) = member {
            names.push(copy_of(alloc, &field.name.name)?)?;
        }
    }
    Ok(names)
}

#[tactic(auto, using(std::proofs::lemmas::List::drop_more))]
fn field_classes(alloc: Global, spec: &Spec, members: &[Member]) -> Result<Items<u32>, NoMemory>
    ensures { IfOk result (λ cs. cs ≡ map (λ f. told.class_number spec.now f.class) (fields_in members.now)) }
{
    let mut classes = Items::new(alloc);
    'each: for member in members {
        if let Member::Field(field) = member {
            classes.push(number(class_number(spec, &field.class))?)?;
        }
    }
    Ok(classes)
}

/// Adds the constructor and the methods of the class of this number.
fn add_methods(
    alloc: Global,
    spec: &Spec,
    class: usize,
    of: &Class,
    methods: &mut Vec<Method>,
) -> Result<(), NoMemory>
    ensures { OnOk result (methods.new.items ≡ methods.old.items ++ map (told.method_of spec.now) (bodies_in class of.now)) }
{
    methods.push(constructor_of(alloc, spec, class, of)?)?;
    add_written(alloc, spec, class, of.members.as_slice(), methods)
}

/// Adds the methods that are written.
#[tactic(auto, using(std::proofs::lemmas::List::drop_more))]
fn add_written(
    alloc: Global,
    spec: &Spec,
    class: usize,
    members: &[Member],
    methods: &mut Vec<Method>,
) -> Result<(), NoMemory>
    ensures { OnOk result (methods.new.items ≡ methods.old.items ++ map (told.method_of spec.now) (map (method_body class) (methods_in members.now))) }
{
    'each: for member in members {
        if let Member::Method(code) = member {
            methods.push(method_of(alloc, spec, class, false, code)?)?;
        }
    }
    Ok(())
}

/// Adds the places of the names of a class's constructor and methods.
fn add_places(of: &Class, places: &mut Vec<Place>) -> Result<(), NoMemory>
    ensures { OnOk result (places.new.items ≡ places.old.items ++ map (λ b. b.code.name.place) (bodies_in 0 of.now)) }
{
    places.push(place_of_constructor(of))?;
    add_written_places(of.members.as_slice(), places)
}

fn place_of_constructor(of: &Class) -> Place
    ensures { result ≡ (constructor_body 0 of.now).code.name.place }
{
    match constructor_among(of.members.as_slice()) {
        Some(code) => code.name.place,
        None => of.name.place,
    }
}

#[tactic(auto, using(std::proofs::lemmas::List::drop_more))]
fn add_written_places(members: &[Member], places: &mut Vec<Place>) -> Result<(), NoMemory>
    ensures { OnOk result (places.new.items ≡ places.old.items ++ map (λ b. b.code.name.place) (map (method_body 0) (methods_in members.now))) }
{
    'each: for member in members {
        if let Member::Method(code) = member {
            places.push(code.name.place)?;
        }
    }
    Ok(())
}

/// The constructor of a class, the implicit one where none is written.
fn constructor_of(alloc: Global, spec: &Spec, class: usize, of: &Class) -> Result<Method, NoMemory>
    ensures { IfOk result (λ m. m ≡ told.method_of spec.now (constructor_body class of.now)) }
{
    match constructor_among(of.members.as_slice()) {
        Some(code) => method_of(alloc, spec, class, true, code),
        None => implicit_constructor(alloc, class, of),
    }
}

/// A constructor without parameters and statements.
fn implicit_constructor(alloc: Global, class: usize, of: &Class) -> Result<Method, NoMemory>
    ensures { IfOk result (λ m. m ≡ forms.implicit_method class of.now) }
{
    let class = number(class)?;
    Ok(Method {
        class,
        name: copy_of(alloc, &of.name.name)?,
        constructor: true,
        params: Items::new(alloc),
        names: Items::new(alloc),
        result: Some(class),
        gives: true,
        clauses: Items::new(alloc),
        body: Items::new(alloc),
        value: None,
    })
}

/// What the body of a constructor or a method holds.
#[derive(Drop)]
struct Inner {
    clauses: Items<Test>,
    body: Items<Act>,
    value: Option<Source>,
}

/// A constructor or a method.
fn method_of(
    alloc: Global,
    spec: &Spec,
    class: usize,
    is_constructor: bool,
    code: &Code,
) -> Result<Method, NoMemory>
    ensures { IfOk result (λ m. m ≡ told.method_of spec.now (record { class = class; constructor = is_constructor; code = code.now })) }
{
    let inner = inner_of(alloc, spec, class, is_constructor, code)?;
    let params = code.params.as_slice();
    let name = copy_of(alloc, &code.name.name)?;
    let classes = classes_of_params(alloc, spec, params)?;
    let names = names_of_params(alloc, params)?;
    let result_class = result_of(spec, class, is_constructor, &code.result)?;
    let gives = gives_value(is_constructor, &code.result);
    let class = number(class)?;
    Ok(Method {
        class,
        name,
        constructor: is_constructor,
        params: classes,
        names,
        result: result_class,
        gives,
        clauses: inner.clauses,
        body: inner.body,
        value: inner.value,
    })
}

fn inner_of(
    alloc: Global,
    spec: &Spec,
    class: usize,
    is_constructor: bool,
    code: &Code,
) -> Result<Inner, NoMemory>
    ensures clauses { IfOk result (λ x. x.clauses ≡ (told.method_of spec.now (record { class = class; constructor = is_constructor; code = code.now })).clauses) }
    ensures body { IfOk result (λ x. x.body ≡ (told.method_of spec.now (record { class = class; constructor = is_constructor; code = code.now })).body) }
    ensures value { IfOk result (λ x. x.value ≡ (told.method_of spec.now (record { class = class; constructor = is_constructor; code = code.now })).value) }
{
    let mut context = start_of(alloc, spec, class, is_constructor, code.params.as_slice())?;
    let clauses = tests_of_requires(alloc, spec, &context, code.clauses.as_slice())?;
    let body = acts_of(alloc, spec, &mut context, code.body.as_slice())?;
    let value = value_of(alloc, spec, &context, given_by(code))?;
    Ok(Inner {
        clauses,
        body,
        value,
    })
}

#[tactic(auto, using(std::proofs::lemmas::List::drop_more))]
fn tests_of_requires(
    alloc: Global,
    spec: &Spec,
    context: &Context,
    conditions: &[Requires],
) -> Result<Items<Test>, NoMemory>
    ensures { IfOk result (λ ts. ts ≡ told.tests_of spec.now context.now (clauses (map (λ c. clause_of c.condition) conditions.now))) }
{
    let mut tests = Items::new(alloc);
    'each: for clause in conditions {
        tests.push(test_of(alloc, spec, context, &clause.condition)?)?;
    }
    Ok(tests)
}

/// The value that a `return` gives, if there is one.
fn value_of(
    alloc: Global,
    spec: &Spec,
    context: &Context,
    value: Option<&Value>,
) -> Result<Option<Source>, NoMemory>
    ensures { IfOk result (λ v. v ≡ option_map (told.source_of spec.now context.now) (option_copied value.entry)) }
{
    match value {
        Some(value) => Ok(Some(source_of(alloc, spec, context, value)?)),
        None => Ok(None),
    }
}

fn classes_of_params(
    alloc: Global,
    spec: &Spec,
    params: &[Param],
) -> Result<Items<Option<u32>>, NoMemory>
    ensures { IfOk result (λ cs. cs ≡ map (λ p. class_told spec.now p.sort) params.now) }
{
    let mut classes = Items::new(alloc);
    'each: for param in params {
        classes.push(number_of_class(spec, &param.sort)?)?;
    }
    Ok(classes)
}

fn names_of_params(alloc: Global, params: &[Param]) -> Result<Items<Name>, NoMemory>
    ensures { IfOk result (λ ns. ns ≡ map (λ p. p.name.name) params.now) }
{
    let mut names = Items::new(alloc);
    'each: for param in params {
        names.push(copy_of(alloc, &param.name.name)?)?;
    }
    Ok(names)
}

fn number_of_class(spec: &Spec, sort: &Sort) -> Result<Option<u32>, NoMemory>
    ensures { IfOk result (λ c. c ≡ class_told spec.now sort.now) }
{
    match class_of(spec, sort) {
        Some(class) => Ok(Some(number(class)?)),
        None => Ok(None),
    }
}

/// The class of a result. A constructor's is its own.
fn result_of(
    spec: &Spec,
    class: usize,
    is_constructor: bool,
    result_sort: &Sort,
) -> Result<Option<u32>, NoMemory>
    ensures { IfOk result (λ c. c ≡ (if is_constructor then Some class else class_told spec.now result_sort.now)) }
{
    if is_constructor {
        Ok(Some(number(class)?))
    } else {
        number_of_class(spec, result_sort)
    }
}

/// A constructor gives a value, and so does a method unless its result is `void`.
fn gives_value(is_constructor: bool, sort: &Sort) -> bool
    ensures { result ≡ (is_constructor || told.has_values sort.now) }
{
    is_constructor || has_values(sort)
}

/// Whether a type is one that values can have.
fn has_values(sort: &Sort) -> bool
    ensures { result ≡ told.has_values sort.now }
{
    !matches!(sort, Sort::Void)
}
