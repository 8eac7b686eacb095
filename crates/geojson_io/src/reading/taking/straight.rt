ghost use Rattle.std.specs.Prelude.{◌≡◌, ◌<◌, true, false, None, IfOk};
ghost use Rattle.json_read.specs.Straight.{HasRead};
ghost use Rattle.json_read.specs.Taking.{TakesOne};
ghost use Rattle.geojson_io.specs.Taking.{HasTaken};

use crate::reading::straight_features::straight_feature;
use crate::reading::taking::FeatureTaker;
use json_read::Reader;
use std::alloc::AllocError;

impl FeatureTaker {
    // Whether the next feature is tried. Where some in a row are of no common form, the first three are tried, and then
    // the fifth, the ninth and so on, so that few texts are read twice.
    pub(crate) fn is_tried(&self) -> bool {
        self.number.saturating_sub(self.straight).count_ones() < 2
    }

    // Reads the next feature straight from its text, and takes it; false where it has to be read as a JSON value.
    pub(crate) fn take_straight(
        &mut self,
        reader: &mut Reader<'_>,
        depth: u32,
    ) -> Result<bool, AllocError>
        requires room { self.old.number < self.old.limit }
        requires sound { self.old.fault ≡ None }
        ensures taken { IfOk result (λ is_taken. is_taken ≡ true → (first : FeatureTaker) → HasRead depth (TakesOne (HasTaken first self.old) (HasTaken first self.new)) reader.old reader.new) }
        ensures kept { IfOk result (λ is_taken. is_taken ≡ false → self.new ≡ self.old) }
    {
        let mut left = self.left;
        let width = self.last_width();
        let Some(feature) = straight_feature(width, reader, depth, self.places, &mut left)? else {
            return Ok(false);
        };
        self.features.push(feature)?;
        self.left = left;
        self.number += 1;
        self.straight = self.number;
        Ok(true)
    }

    // How many properties the last feature has; most have as many.
    fn last_width(&self) -> u32 {
        match self.features.as_slice() {
            [.., last] => last.fields.len(),
            [] => 0,
        }
    }
}
