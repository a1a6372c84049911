//! The settings of a run, with the limits that their numbers are tested against.

ghost use Rattle.std.specs.Prelude.{◌≡◌, pos};
ghost use Rattle.tk_base.specs.Settings.{settings_of, IsWithinLimits, are_counts as are_counts_of, is_k as is_k_of};

use std::error::Error;
use std::fmt;
use std::marker::Model;

const MAX_OBJECTS: u64 = 65_536;

const MAX_MONITORS: u64 = 64;

const MAX_PRODUCT: u64 = 1_048_576;

const MAX_K: u64 = 1_024;

const MAX_EPSILON: u128 = 1_267_650_600_228_229_401_496_703_205_376;

const MAX_OWN_WEIGHT: u64 = 1_000;

/// Which number of the settings is past its limit.
#[derive(Clone, Copy, Debug, PartialEq, Eq)]
pub enum SettingFault {
    BadCount,
    BadK,
    BadEpsilon,
    BadWeight,
}

impl fmt::Display for SettingFault {
    ghost use Rattle.std.specs.Prelude.{Some};
    ghost use Rattle.tk_base.specs.Texts.{setting_fault_text};

    ghost output = { λ fault. Some (setting_fault_text fault) };

    fn fmt<W: fmt::Write>(&self, f: &mut fmt::Formatter<W>) -> fmt::Result {
        f.write_str(match self {
            SettingFault::BadCount => "bad number of objects or monitors",
            SettingFault::BadK => "bad k",
            SettingFault::BadEpsilon => "bad epsilon",
            SettingFault::BadWeight => "bad own weight",
        })
    }
}

impl Error for SettingFault {}

/// What a run is set up with: how many members, within which epsilon, over how many objects and monitors.
#[derive(Clone, Copy, Debug, PartialEq, Eq)]
pub struct Settings {
    k: u32,
    epsilon: i128,
    own_weight: u32,
    objects: u32,
    monitors: u32,
}

impl Model for Settings {
    ghost use Rattle.tk_base.specs.Settings.{Setup, IsWithinLimits};

    ghost Value = { Setup };

    ghost view = { λ s. record {
      k = s.k;
      epsilon = s.epsilon;
      own_weight = s.own_weight;
      objects = s.objects;
      monitors = s.monitors;
    } };

    ghost invariant = { λ s. IsWithinLimits (record {
      k = s.k;
      epsilon = s.epsilon;
      own_weight = s.own_weight;
      objects = s.objects;
      monitors = s.monitors;
    }) };

    ghost inverse = { λ s. record {
      k = s.k;
      epsilon = s.epsilon;
      own_weight = s.own_weight;
      objects = s.objects;
      monitors = s.monitors;
    } };
}

fn are_counts(objects: u64, monitors: u64) -> bool
    ensures { result ≡ are_counts_of objects monitors }
{
    0 < objects
        && objects <= MAX_OBJECTS
        && 0 < monitors
        && monitors <= MAX_MONITORS
        && objects * monitors <= MAX_PRODUCT
}

fn is_k(k: u64, objects: u64) -> bool
    ensures { result ≡ is_k_of k objects }
{
    0 < k && k <= MAX_K && k <= objects
}

impl Settings {
    /// Tests the numbers in the order of the refusals: counts, k, epsilon, own weight.
    pub fn new(
        k: u64,
        epsilon: u128,
        own_weight: u64,
        objects: u64,
        monitors: u64,
    ) -> Result<Settings, SettingFault>
        ensures { result ≡ settings_of k epsilon own_weight objects monitors }
    {
        if !are_counts(objects, monitors) {
            return Err(SettingFault::BadCount);
        }
        if !is_k(k, objects) {
            return Err(SettingFault::BadK);
        }
        if epsilon > MAX_EPSILON {
            return Err(SettingFault::BadEpsilon);
        }
        if own_weight > MAX_OWN_WEIGHT {
            return Err(SettingFault::BadWeight);
        }
        Ok(Settings {
            k: k as u32,
            epsilon: epsilon as i128,
            own_weight: own_weight as u32,
            objects: objects as u32,
            monitors: monitors as u32,
        })
    }

    /// How many members there are.
    pub fn k(&self) -> u32
        ensures value { result ≡ self.now.k }
        ensures limits { IsWithinLimits self.now }
    {
        self.k
    }

    /// How far a member's total may be below an outsider's.
    pub fn epsilon(&self) -> i128
        ensures value { result ≡ self.now.epsilon }
        ensures limits { IsWithinLimits self.now }
    {
        self.epsilon
    }

    /// The coordinator's share of the slack, beside each monitor's 1.
    pub fn own_weight(&self) -> u32
        ensures value { result ≡ self.now.own_weight }
        ensures limits { IsWithinLimits self.now }
    {
        self.own_weight
    }

    /// How many objects there are.
    pub fn objects(&self) -> u32
        ensures value { result ≡ self.now.objects }
        ensures limits { IsWithinLimits self.now }
    {
        self.objects
    }

    /// How many monitors there are.
    pub fn monitors(&self) -> u32
        ensures value { result ≡ self.now.monitors }
        ensures limits { IsWithinLimits self.now }
    {
        self.monitors
    }
}
