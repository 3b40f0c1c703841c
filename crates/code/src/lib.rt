// What the code of a service and of the house must be, to be the system of the model; and that the decisions are it.
#![tactic(auto)]

ghost use Rattle.code.specs.Sides.{HouseStands, ServiceStands};

// The decisions of a service, as their contracts say them, are what a service must be.
pub fn service_stands()
    ensures { ServiceStands }
{}

// The decisions of the house, as their contracts say them, are what a house must be.
pub fn house_stands()
    ensures { HouseStands }
{}
