//! Specifications that were checked.
use crate::form::{ClassForm, Method};
use crate::place::Name;
use sqlite_items::Items;
use std::marker::Model;

/// A checked specification, which contracts see as its checked form: the form of a well-formed tree within the limits,
/// which some text spells.
#[derive(Debug, Drop)]
pub struct CheckedSpec {
    classes: Items<ClassForm>,
    methods: Items<Method>,
}

impl Model for CheckedSpec {
    ghost use Rattle.easl_model.specs.{IsChecked, IsInRange};
    ghost use Rattle.easl_model.specs.Form.{Form};
    ghost use Rattle.easl_model.specs.contracts.form.Act as act;
    ghost use Rattle.easl_model.specs.contracts.form.Test as test;
    ghost use Rattle.std.specs.Coded.{codes};

    ghost Value = { Form };

    ghost coded = { Prim.hlevel (codes, act.the_row.coded, test.the_row.coded) };

    ghost view = { λ s. record { classes = s.classes; methods = s.methods } };

    ghost invariant = { λ s. IsChecked (record { classes = s.classes; methods = s.methods })
        × IsInRange (record { classes = s.classes; methods = s.methods }) };
}

impl CheckedSpec {
    ghost use Rattle.std.specs.Prelude.{◌≡◌, ◌<◌, ◌≤◌, true, IfSome, length, slice_index, slice_get};
    ghost use Rattle.std.specs.Option.{option_map};
    ghost use Rattle.easl_model.specs.{IsChecked, IsInRange, MethodInRange, MethodKeepsLimits, constructor_of, field_names_of, fields_of};
    ghost use Rattle.easl_model.specs.Form.{Form};

    /// A specification of these parts, the classes and the methods by number. It takes no memory.
    pub fn new(classes: Vec<ClassForm>, methods: Vec<Method>) -> CheckedSpec
        requires { IsChecked (record { classes = classes.items; methods = methods.items }) }
        ensures { result ≡ record { classes = classes.items; methods = methods.items } }
    {
        CheckedSpec {
            classes: Items::from_vec(classes),
            methods: Items::from_vec(methods),
        }
    }

    /// Does nothing: its contract says what every checked specification keeps.
    pub fn is_kept(&self)
        ensures checked { IsChecked self.now }
        ensures in_range { IsInRange self.now }
    {
        let _ = &self.classes;
    }

    pub fn class_count(&self) -> u32
        ensures count { result ≡ length self.now.classes }
        ensures in_range { IsInRange self.now }
        ensures checked { IsChecked self.now }
    {
        self.classes.len() as u32
    }

    pub fn method_count(&self) -> u32
        ensures { result ≡ length self.now.methods }
    {
        self.methods.len() as u32
    }

    pub fn class_name(&self, class: u32) -> &Name
        requires { class < length self.now.classes }
        ensures { option_map (λ c. c.name) (slice_get self.now.classes class) ≡ Some result.now }
    {
        &self.classes.as_slice()[class as usize].name
    }

    pub fn field_count(&self, class: u32) -> u32
        requires { class < length self.now.classes }
        ensures count { result ≡ length (fields_of self.now class) }
        ensures few { result ≤ 16 }
    {
        self.classes.as_slice()[class as usize].field_classes.len() as u32
    }

    pub fn field_class(&self, class: u32, field: u32) -> u32
        requires class { class < length self.now.classes }
        requires field { field < length (fields_of self.now class) }
        ensures { result ≡ slice_index (fields_of self.now class) field }
    {
        let classes = &self.classes.as_slice()[class as usize].field_classes;
        classes.as_slice()[field as usize]
    }

    pub fn field_name(&self, class: u32, field: u32) -> &Name
        requires class { class < length self.now.classes }
        requires field { field < length (fields_of self.now class) }
        ensures { slice_get (field_names_of self.now class) field ≡ Some result.now }
    {
        &self.classes.as_slice()[class as usize]
            .field_names
            .as_slice()[field as usize]
    }

    /// The number of the class's constructor.
    pub fn constructor(&self, class: u32) -> u32
        requires { class < length self.now.classes }
        ensures number { result ≡ constructor_of self.now class }
        ensures in_range { result < length self.now.methods }
        ensures constructs { IfSome (slice_get self.now.methods result) (λ m. m.constructor ≡ true) }
    {
        self.classes.as_slice()[class as usize].constructor
    }

    pub fn method(&self, method: u32) -> &Method
        requires { method < length self.now.methods }
        ensures value { slice_get self.now.methods method ≡ Some result.now }
        ensures in_range { MethodInRange (length self.now.classes) result.now }
        ensures limits { MethodKeepsLimits self.now result.now }
        ensures checked { IsChecked self.now }
    {
        &self.methods.as_slice()[method as usize]
    }
}
