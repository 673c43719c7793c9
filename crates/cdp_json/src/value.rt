//! JSON values.

ghost use Rattle.std.specs.Prelude.{◌≡◌};
ghost use Rattle.cdp_json.specs.Json as json;
ghost use Rattle.cdp_json.specs.Views.{json_view, list_view, object_view, member_view, items_view, members_view};

use cdp_text::units::Units;

/// A JSON value. Its texts are UTF-16 units, its numbers integers.
#[derive(Drop)]
#[cycle(value)]
pub enum Json {
    /// `null`.
    Null,
    /// A truth value.
    Bool(bool),
    /// An integer.
    Number(i64),
    /// A text.
    Text(Units),
    /// A list of values.
    List(JsonList),
    /// An object of members.
    Object(JsonObject),
}

/// The values of a list, in order.
#[derive(Drop)]
#[cycle(value)]
pub struct JsonList {
    pub(crate) items: Vec<Json>,
}

/// The members of an object, in the order in which they were given.
#[derive(Drop)]
#[cycle(value)]
pub struct JsonObject {
    pub(crate) members: Vec<Member>,
}

/// A key with its value.
#[derive(Drop)]
#[cycle(value)]
pub struct Member {
    /// The key.
    pub key: Units,
    /// The value.
    pub value: Json,
}

impl JsonList {
    /// The list of these values, in the memory of the vector.
    #[tactic(auto, using(crate::proofs::ViewLemmas::view_list))]
    pub fn from_vec(items: Vec<Json>) -> JsonList
        ensures { list_view result ≡ items_view items.items }
    {
        JsonList { items }
    }

    /// The values, in the memory of the list.
    #[tactic(auto, using(crate::proofs::ViewLemmas::list_items))]
    pub fn into_vec(self) -> Vec<Json>
        ensures { items_view result.items ≡ list_view self }
    {
        self.items
    }

    /// The values.
    #[tactic(auto, using(crate::proofs::ViewLemmas::list_items))]
    pub fn as_slice(&self) -> &[Json]
        ensures { items_view result.now ≡ list_view self.now }
    {
        self.items.as_slice()
    }
}

impl JsonObject {
    /// The object of these members, in the memory of the vector.
    #[tactic(auto, using(crate::proofs::ViewLemmas::view_object))]
    pub fn from_vec(members: Vec<Member>) -> JsonObject
        ensures { object_view result ≡ members_view members.items }
    {
        JsonObject { members }
    }

    /// The members, in the memory of the object.
    #[tactic(auto, using(crate::proofs::ViewLemmas::object_members))]
    pub fn into_vec(self) -> Vec<Member>
        ensures { members_view result.items ≡ object_view self }
    {
        self.members
    }

    /// The members.
    #[tactic(auto, using(crate::proofs::ViewLemmas::object_members))]
    pub fn as_slice(&self) -> &[Member]
        ensures { members_view result.now ≡ object_view self.now }
    {
        self.members.as_slice()
    }
}

impl Member {
    /// A key with its value.
    #[tactic(auto, using(crate::proofs::ViewLemmas::view_member))]
    pub fn new(key: Units, value: Json) -> Member
        ensures { member_view result ≡ (key, json_view value) }
    {
        Member { key, value }
    }
}

/// The value `null`.
#[tactic(auto, using(crate::proofs::ViewLemmas::json_laws))]
pub fn null() -> Json
    ensures { json_view result ≡ json.null }
{
    Json::Null
}

/// A truth value.
#[tactic(auto, using(crate::proofs::ViewLemmas::json_laws))]
pub fn boolean(value: bool) -> Json
    ensures { json_view result ≡ json.boolean value }
{
    Json::Bool(value)
}

/// A number.
#[tactic(auto, using(crate::proofs::ViewLemmas::json_laws))]
pub fn number(value: i64) -> Json
    ensures { json_view result ≡ json.number value }
{
    Json::Number(value)
}

/// A text.
#[tactic(auto, using(crate::proofs::ViewLemmas::json_laws))]
pub fn text(units: Units) -> Json
    ensures { json_view result ≡ json.text units }
{
    Json::Text(units)
}

/// A list of these values.
#[tactic(auto, using(crate::proofs::ViewLemmas::json_laws))]
pub fn list(items: Vec<Json>) -> Json
    ensures { json_view result ≡ json.list (items_view items.items) }
{
    Json::List(JsonList::from_vec(items))
}

/// An object of these members.
#[tactic(auto, using(crate::proofs::ViewLemmas::json_laws))]
pub fn object(members: Vec<Member>) -> Json
    ensures { json_view result ≡ json.object (members_view members.items) }
{
    Json::Object(JsonObject::from_vec(members))
}
