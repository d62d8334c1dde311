ghost use Rattle.operators.specs.Plants.{PlantBases, Plants};

// Nothing to do: the clause states what the definitions give on small plants.
pub fn plants_stand()
    ensures plants { Plants }
    ensures bases { PlantBases }
{}
