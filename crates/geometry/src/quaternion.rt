// Rotations as quaternions, scalar first, from src/geometry/quaternion/mod.rs.
ghost use Rattle.std.specs.Prelude.{◌≡◌};
ghost use Rattle.time.specs.Reply.{reply_by};
ghost use Rattle.geometry.specs.Answers.{quaternion_refusal_of};
ghost use Rattle.geometry.specs.Quaternion.{identity, conjugate, scale, mul, weighted_sum, dot, norm, is_finite, normalize, rotate_vector, blend, arc, between, slerp};

use super::error::QuaternionError;
use super::vector3::Vector3;
use libm::float::{clamp, is_finite};
use libm::{acos, sin, sqrt};
use std::ops::Mul;

#[repr(C)]
#[derive(Clone, Copy, Debug, PartialEq)]
pub struct Quaternion {
    pub w: f64,
    pub x: f64,
    pub y: f64,
    pub z: f64,
}

impl Quaternion {
    pub const IDENTITY: Quaternion = Quaternion {
        w: 1.0,
        x: 0.0,
        y: 0.0,
        z: 0.0,
    };

    pub fn identity() -> Self
        ensures { result ≡ identity }
    {
        Self::IDENTITY
    }

    pub fn conjugate(self) -> Quaternion
        ensures { result ≡ conjugate self }
    {
        Quaternion {
            w: self.w,
            x: -self.x,
            y: -self.y,
            z: -self.z,
        }
    }

    pub fn scale(self, factor: f64) -> Quaternion
        ensures { result ≡ scale self factor }
    {
        Quaternion {
            w: self.w * factor,
            x: self.x * factor,
            y: self.y * factor,
            z: self.z * factor,
        }
    }

    #[tactic(auto, unfolding(crate::specs::Quaternion::rotate_vector))]
    pub fn rotate_vector(self, v: Vector3) -> Vector3
        ensures { result ≡ rotate_vector self v }
    {
        let q_vec = Quaternion {
            w: 0.0,
            x: v.x,
            y: v.y,
            z: v.z,
        };
        let q_res = self * q_vec * self.conjugate();
        Vector3 {
            x: q_res.x,
            y: q_res.y,
            z: q_res.z,
        }
    }

    pub fn dot(self, other: Quaternion) -> f64
        ensures { result ≡ dot self other }
    {
        self.w * other.w + self.x * other.x + self.y * other.y + self.z * other.z
    }

    pub fn norm(self) -> f64
        ensures { result ≡ norm self }
    {
        sqrt(self.w * self.w + self.x * self.x + self.y * self.y + self.z * self.z)
    }

    pub fn is_finite(self) -> bool
        ensures { result ≡ is_finite self }
    {
        is_finite(self.w) && is_finite(self.x) && is_finite(self.y) && is_finite(self.z)
    }

    #[tactic(auto, unfolding(crate::specs::Quaternion::normalize))]
    pub fn normalize(self) -> Result<Quaternion, QuaternionError>
        ensures { reply_by quaternion_refusal_of result ≡ normalize self }
    {
        let n = self.norm();
        if !is_finite(n) {
            return Err(QuaternionError::NonFinite);
        }
        if n < f64::EPSILON {
            return Err(QuaternionError::ZeroLengthNormalization);
        }
        Ok(self.scale(1.0 / n))
    }

    pub fn weighted_sum(a: Quaternion, wa: f64, b: Quaternion, wb: f64) -> Quaternion
        ensures { result ≡ weighted_sum a wa b wb }
    {
        Quaternion {
            w: a.w * wa + b.w * wb,
            x: a.x * wa + b.x * wb,
            y: a.y * wa + b.y * wb,
            z: a.z * wa + b.z * wb,
        }
    }

    // Two rotations that nearly agree: their weighted sum, scaled to norm 1 unless it is too short.
    #[tactic(auto, unfolding(crate::specs::Quaternion::blend))]
    fn blend(self, other: Quaternion, t: f64) -> Quaternion
        ensures { result ≡ blend self other t }
    {
        let blended = Self::weighted_sum(self, 1.0 - t, other, t);
        let n = blended.norm();
        if n < f64::EPSILON {
            return blended;
        }
        blended.scale(1.0 / n)
    }

    // Along the arc of the angle theta between them.
    #[tactic(auto, unfolding(crate::specs::Quaternion::arc))]
    fn arc(self, other: Quaternion, theta: f64, t: f64) -> Quaternion
        ensures { result ≡ arc self other theta t }
    {
        let sin_theta = sin(theta);
        let scale_self = sin((1.0 - t) * theta) / sin_theta;
        let scale_other = sin(t * theta) / sin_theta;
        Self::weighted_sum(self, scale_self, other, scale_other)
    }

    // Two rotations with the given dot.
    #[tactic(auto, unfolding(crate::specs::Quaternion::between))]
    fn between(self, other: Quaternion, dot: f64, t: f64) -> Quaternion
        ensures { result ≡ between self other dot t }
    {
        if dot > 1.0 - f64::EPSILON {
            return self.blend(other, t);
        }
        self.arc(other, acos(dot), t)
    }

    #[tactic(auto, unfolding(crate::specs::Quaternion::slerp))]
    pub fn slerp(self, other: Quaternion, share: f64) -> Quaternion
        ensures { result ≡ slerp self other share }
    {
        let t = clamp(share, 0.0, 1.0);
        let dot = self.dot(other);
        if dot < 0.0 {
            return self.between(other.scale(-1.0), clamp(-dot, -1.0, 1.0), t);
        }
        self.between(other, clamp(dot, -1.0, 1.0), t)
    }
}

impl Mul for Quaternion {
    type Output = Quaternion;

    ghost mul_gives = { λ a b product. product ≡ mul a b };

    fn mul(self, other: Quaternion) -> Quaternion {
        Quaternion {
            w: self.w * other.w - self.x * other.x - self.y * other.y - self.z * other.z,
            x: self.w * other.x + self.x * other.w + self.y * other.z - self.z * other.y,
            y: self.w * other.y - self.x * other.z + self.y * other.w + self.z * other.x,
            z: self.w * other.z + self.x * other.y - self.y * other.x + self.z * other.w,
        }
    }
}
