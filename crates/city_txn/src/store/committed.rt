//! What is committed, whatever open transactions have written.
ghost use Rattle.std.specs.Prelude.{◌≡◌, IfOk, option_copied};
ghost use Rattle.city_txn.specs.internal.State.{store_committed};

use crate::end::End;
use crate::store::Store;
use city_members::copied::Copied;
use city_members::text::Id;
use city_model::OutOfMemory;
use city_model::city::City;
use city_model::object::Object;

impl Store {
    /// The committed object at an id. Doesn't allocate.
    pub fn committed(&self, id: &Id) -> Option<&Object>
        ensures { option_copied result ≡ store_committed self.now id.now }
    {
        match self.transactions.image(id) {
            Some(image) => image.committed(self.city.get(id)),
            None => self.city.get(id),
        }
    }

    /// A copy of the city with the committed objects alone.
    pub fn committed_city(&self) -> Result<City, OutOfMemory>
        ensures { IfOk result (λ city. city ≡ (self.now.frame, self.now.city)) }
    {
        let mut city = self.city.copy(self.alloc)?;
        let mut written = self.transactions.copy_images()?;
        written.end_all(&mut city, End::RollBack);
        Ok(city)
    }
}
