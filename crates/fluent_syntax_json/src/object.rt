//! Objects, filled key by key.
ghost use Rattle.std.specs.Prelude.{◌≡◌, IfOk, codes};
ghost use Rattle.serde_json.specs.Data.{string, object, no_members, put};
ghost use Rattle.serde_json.specs.View.{view};
ghost use Rattle.fluent_syntax_json.specs.Object.{members_so_far};

use serde_json::{Map, Value};
use std::alloc::{AllocError, Global};

#[derive(Drop)]
pub struct Object {
    alloc: Global,
    members: Map<String, Value>,
}

impl Object {
    /// An object without keys.
    pub fn new(alloc: Global) -> Object
        ensures { members_so_far result ≡ no_members }
    {
        Object {
            alloc,
            members: Map::new(alloc),
        }
    }

    /// An object whose key `type` has the name.
    pub fn of_type(alloc: Global, name: &str) -> Result<Object, AllocError>
        ensures { IfOk result (λ o. members_so_far o ≡ put (codes "type") (string name.now) no_members) }
    {
        Object::new(alloc).with("type", Value::try_from_str(alloc, name)?)
    }

    /// The object with the value at the key.
    pub fn with(self, key: &str, value: Value) -> Result<Object, AllocError>
        ensures { IfOk result (λ o. members_so_far o ≡ put key.now (view value) (members_so_far self)) }
    {
        let mut object = self;
        serde_json::put(&mut object.members, object.alloc, key, value)?;
        Ok(object)
    }

    pub fn into_value(self) -> Value
        ensures { view result ≡ object (members_so_far self) }
    {
        Value::Object(self.members)
    }
}
