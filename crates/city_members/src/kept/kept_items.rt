//! The items of a kept JSON array.
ghost use Rattle.std.specs.Prelude.{◌≡◌, IfOk};
ghost use Rattle.serde_json.specs.View.{items_view};
ghost use Rattle.city_members.specs.Attributes.{same_items};
ghost use Rattle.city_members.specs.Integral.{items_integral};
ghost use Rattle.city_members.specs.internal.KeptValues.{items_data};

use crate::OutOfMemory;
use crate::kept::kept_value::KeptValue;
use crate::kept::size::Size;
use serde_json::Value;
use std::alloc::Global;
use std::marker::Model;

/// The items of a JSON array. A copy copies them.
#[cycle(kept)]
#[derive(Drop)]
pub struct KeptItems {
    items: Vec<KeptValue>,
}

impl Model for KeptItems {
    ghost use Rattle.serde_json.specs.Data.{Items};

    ghost Value = { Items };

    ghost use Rattle.city_members.specs.internal.DataCode.{coded_items};

    ghost coded = { coded_items };

    ghost use Rattle.city_members.specs.internal.KeptValues.{items_data, items_size};

    ghost view = { λ a. items_data a.items.items };

    ghost size = { items_size };

    ghost use Rattle.city_members.specs.internal.KeptSizes.{most_items};

    ghost size_decreases = { λ a h. most_items a.items.items };
}

impl KeptItems {
    /// The items of a list. Doesn't allocate.
    pub fn from_vec(items: Vec<KeptValue>) -> Self
        ensures { result ≡ items_data items.items }
    {
        KeptItems { items }
    }

    /// The items in their order. Doesn't allocate.
    pub fn as_slice(&self) -> &[KeptValue]
        ensures { items_data result.now ≡ self.now }
    {
        self.items.as_slice()
    }

    /// The items of a tree. Takes over their texts.
    #[cycle(from)]
    pub(crate) fn from_values(alloc: Global, values: Vec<Value>) -> Result<Self, OutOfMemory>
        ensures { IfOk result (λ items. items ≡ items_view values.items) }
    {
        let mut items = Vec::with_capacity(alloc, values.len())?;
        for value in values {
            let item = KeptValue::from_value(alloc, value)?;
            items.push(item)?;
        }
        Ok(KeptItems { items })
    }

    /// The items as trees. Gives their texts over.
    #[cycle(into)]
    pub(crate) fn into_values(self, alloc: Global) -> Result<Vec<Value>, OutOfMemory>
        ensures { IfOk result (λ values. items_view values.items ≡ self) }
    {
        let mut values = Vec::with_capacity(alloc, self.items.len())?;
        for item in self.items {
            let value = item.into_value(alloc)?;
            values.push(value)?;
        }
        Ok(values)
    }

    /// A copy.
    #[cycle(copy)]
    pub(crate) fn copied(&self, alloc: Global) -> Result<Self, OutOfMemory>
        ensures { IfOk result (λ items. items ≡ self.now) }
    {
        let mut items = Vec::with_capacity(alloc, self.items.len())?;
        for item in &self.items {
            let copy = item.copied(alloc)?;
            items.push(copy)?;
        }
        Ok(KeptItems { items })
    }

    /// Whether trees have the same values, in this order. Doesn't allocate.
    #[cycle(same)]
    pub(crate) fn are_same(&self, values: &Vec<Value>) -> bool
        ensures { result ≡ same_items (items_view values.now.items) self.now }
    {
        let mut left = self.items.iter();
        for value in values {
            let Some(item) = left.next() else {
                return false;
            };
            if !item.is_same(value) {
                return false;
            }
        }
        left.next().is_none()
    }

    /// Whether every number of the items is an `i64`. If so, their size is counted.
    #[cycle(integral)]
    pub(crate) fn are_integral(&self, size: &mut Size) -> bool
        ensures { result ≡ items_integral self.now }
    {
        size.count_items(self.items.len());
        for item in &self.items {
            if !item.is_integral(size) {
                return false;
            }
        }
        true
    }
}
