// Poses by value, from src/geometry/transform/isometry.rs.
ghost use Rattle.std.specs.Prelude.{◌≡◌};
ghost use Rattle.time.specs.Reply.{reply_by};
ghost use Rattle.geometry.specs.Answers.{refusal_of};
ghost use Rattle.geometry.specs.Isometry.{identity, is_finite, finite, product, mul, inverse, inverse_with_rotation, interpolated, interpolate, between};

use super::error::TransformError;
use super::quaternion::Quaternion;
use super::vector3::Vector3;
use time::timestamp::share;

// A rotation followed by a translation.
#[repr(C)]
#[derive(Clone, Copy, Debug, PartialEq)]
pub struct Isometry {
    pub translation: Vector3,
    pub rotation: Quaternion,
}

impl Isometry {
    pub const IDENTITY: Isometry = Isometry {
        translation: Vector3::ZERO,
        rotation: Quaternion::IDENTITY,
    };

    pub fn identity() -> Self
        ensures { result ≡ identity }
    {
        Self::IDENTITY
    }

    // Whether all seven components are finite.
    pub fn is_finite(self) -> bool
        ensures { result ≡ is_finite self }
    {
        self.translation.is_finite() && self.rotation.is_finite()
    }

    // The pose itself, if all seven components are finite.
    #[tactic(auto, unfolding(crate::specs::Isometry::finite))]
    pub fn finite(self) -> Result<Isometry, TransformError>
        ensures { reply_by refusal_of result ≡ finite self }
    {
        if self.is_finite() {
            Ok(self)
        } else {
            Err(TransformError::NonFiniteValues)
        }
    }

    // The steps of the product, for a layer that tests what comes out of several: it need not be finite.
    #[tactic(auto, unfolding(crate::specs::Isometry::product))]
    pub fn product(self, rhs: Isometry) -> Isometry
        ensures { result ≡ product self rhs }
    {
        Isometry {
            translation: self.rotation.rotate_vector(rhs.translation) + self.translation,
            rotation: self.rotation * rhs.rotation,
        }
    }

    #[tactic(auto, unfolding(crate::specs::Isometry::mul))]
    pub fn mul(self, rhs: Isometry) -> Result<Isometry, TransformError>
        ensures { reply_by refusal_of result ≡ mul self rhs }
    {
        self.product(rhs).finite()
    }

    #[tactic(auto, unfolding(crate::specs::Isometry::inverse))]
    pub fn inverse(self) -> Result<Isometry, TransformError>
        ensures { reply_by refusal_of result ≡ inverse self }
    {
        let rotation = self.rotation.normalize()?;
        self.inverse_with_rotation(rotation.conjugate())
    }

    // The inverse, whose rotation is given.
    #[tactic(auto, unfolding(crate::specs::Isometry::inverse_with_rotation))]
    fn inverse_with_rotation(self, rotation: Quaternion) -> Result<Isometry, TransformError>
        ensures { reply_by refusal_of result ≡ inverse_with_rotation self rotation }
    {
        let translation = -1.0 * rotation.rotate_vector(self.translation);
        if translation.is_finite() {
            Ok(Isometry {
                translation,
                rotation,
            })
        } else {
            Err(TransformError::NonFiniteValues)
        }
    }

    // The steps of `interpolate`, for a layer that tests what comes out: it need not be finite.
    #[tactic(auto, unfolding(crate::specs::Isometry::interpolated))]
    pub fn interpolated(
        self,
        other: Isometry,
        from: u64,
        to: u64,
        query: u64,
    ) -> Result<Isometry, TransformError>
        ensures { reply_by refusal_of result ≡ interpolated self other from to query }
    {
        match share(from, to, query)? {
            None => Ok(self),
            Some(ratio) => Ok(self.between(other, ratio)),
        }
    }

    // At `query` between self at `from` and other at `to`.
    #[tactic(auto, unfolding(crate::specs::Isometry::interpolate))]
    pub fn interpolate(
        self,
        other: Isometry,
        from: u64,
        to: u64,
        query: u64,
    ) -> Result<Isometry, TransformError>
        ensures { reply_by refusal_of result ≡ interpolate self other from to query }
    {
        self.interpolated(other, from, to, query)?.finite()
    }

    #[tactic(auto, unfolding(crate::specs::Isometry::between))]
    fn between(self, other: Isometry, ratio: f64) -> Isometry
        ensures { result ≡ between self other ratio }
    {
        Isometry {
            translation: (1.0 - ratio) * self.translation + ratio * other.translation,
            rotation: self.rotation.slerp(other.rotation, ratio),
        }
    }
}
